//! The lines of a file of cases.
ghost use Rattle.std.specs.Prelude.{◌≡◌, ◌↔◌, ◌++◌, ℕ, List, codes, MatchBool, IsTrue, IfOk, count_by, string_bytes};
ghost use Rattle.cases.specs.declared.cases.Line.TheVariants.{Right, Wrong};
ghost use Rattle.cases.specs.Cases.{after_both, after_word, AreRead, AreRefusals, first_word, is_case, IsJudged, IsRead, IsValued, IsVaried, Judges, Makes, refusal, Under, under};

use crate::answers::{has_values, is_answered, reads_as};
use crate::words::{Words, cut, trimmed};
use std::alloc::{AllocError, Global};

/// What a line of a file of cases is.
#[derive(Clone, Copy, PartialEq, Drop)]
pub enum Line {
    /// A comment, an empty line, or a word with its text.
    Given,
    /// A case that is answered as it must be.
    Right,
    /// A case that is answered otherwise, or a line of no such form.
    Wrong,
}

/// A case, by whether its answer is as it must be.
fn judged(right: bool) -> Line
    ensures { MatchBool right (result ≡ Right) (result ≡ Wrong) }
{
    if right { Line::Right } else { Line::Wrong }
}

/// Whether two things are so.
fn both(one: bool, other: bool) -> bool
    ensures { IsTrue result ↔ (IsTrue one × IsTrue other) }
{
    one && other
}

/// The text up to the first blank, and what follows that; the whole text and nothing where there is none.
#[tactic(auto, using(std::proofs::lemmas::Str::Pattern::split_once_first))]
fn parted(text: &str) -> (&str, &str)
    ensures word { result.0.now ≡ first_word text.now }
    ensures rest { result.1.now ≡ after_word text.now }
{
    text.split_once(' ').unwrap_or((text, ""))
}

/// A command answers the document so: a status, and a line that may be left out.
fn is(alloc: Global, words: &Words<'_>, command: &str, answer: &str) -> Result<bool, AllocError>
    ensures { IfOk result (Judges words.now command.now answer.now) }
{
    let (status, line) = parted(answer);
    let Ok(status) = status.parse::<u8>() else {
        return Ok(false);
    };
    let document = words.full(alloc, "<document>")?;
    let wanted = words.full(alloc, line)?;
    is_answered(alloc, command, &document, status, &wanted)
}

/// `optimize` answers the document so, under these flags from here on.
fn is_under<'a>(
    alloc: Global,
    words: &mut Words<'a>,
    flags: &'a str,
    answer: &str,
) -> Result<bool, AllocError>
    ensures words { words.new ≡ under words.old flags.now }
    ensures right { IfOk result (Under words.old flags.now (λ now. Judges now (codes "optimize") answer.now)) }
{
    if !words.set("<flags>", flags) {
        return Ok(false);
    }
    is(alloc, words, "optimize", answer)
}

/// What refuses a plan with a kind, a node and a place, `KIND NODE PLACE`: a status and a line.
#[tactic(auto, unfolding(crate::specs::Cases::refusal))]
fn refusal(alloc: Global, told: &str) -> Result<String, AllocError>
    ensures { IfOk result (λ answer. string_bytes answer ≡ refusal told.now) }
{
    let (kind, at) = parted(told);
    let (node, place) = parted(at);
    format!(in alloc; r#"5 {{"error":{{"kind":"{kind}","node":{node},"place":{place}}}}}"#)
}

/// The document is refused with a kind, a node and a place, by `check`, and by `optimize` whether pruning is asked or not.
fn fault<'a>(alloc: Global, words: &mut Words<'a>, told: &str) -> Result<bool, AllocError>
    ensures words { IfOk result (λ right. words.new ≡ after_both words.old) }
    ensures right { IfOk result (AreRefusals words.old told.now) }
{
    let answer = refusal(alloc, told)?;
    let checked = is(alloc, words, "check", &answer)?;
    let unpruned = is_under(alloc, words, "0", &answer)?;
    let pruned = is_under(alloc, words, "1", &answer)?;
    Ok(both(checked, both(unpruned, pruned)))
}

/// `optimize` makes of the document a column of a type and with values, under these flags from here on.
fn makes<'a>(
    alloc: Global,
    words: &mut Words<'a>,
    flags: &'a str,
    dtype: &str,
    values: &str,
) -> Result<bool, AllocError>
    ensures words { words.new ≡ under words.old flags.now }
    ensures right { IfOk result (Under words.old flags.now (λ now. Makes now dtype.now values.now)) }
{
    if !words.set("<flags>", flags) {
        return Ok(false);
    }
    let document = words.full(alloc, "<document>")?;
    has_values(alloc, &document, dtype, values)
}

/// The expressions make a column of a type and with values, whether pruning is asked or not.
fn value<'a>(alloc: Global, words: &mut Words<'a>, told: &'a str) -> Result<bool, AllocError>
    ensures { IfOk result (λ right. IsValued words.old told.now right words.new) }
{
    let Some((made, exprs)) = cut(told, " = ") else {
        return Ok(false);
    };
    let (dtype, values) = parted(made);
    let named = words.set("<exprs>", exprs);
    let typed = words.set("<type>", dtype);
    let unpruned = makes(alloc, words, "0", dtype, values)?;
    let pruned = makes(alloc, words, "1", dtype, values)?;
    Ok(both(both(named, typed), both(unpruned, pruned)))
}

/// The document that is given, with a piece replaced where it stands first, reads so.
fn variant(alloc: Global, words: &Words<'_>, wanted: &str, pieces: &str) -> Result<bool, AllocError>
    ensures { IfOk result (IsVaried words.now wanted.now pieces.now) }
{
    let Some((old, rest)) = cut(pieces, " =>") else {
        return Ok(false);
    };
    let new = trimmed(rest);
    let given = words.full(alloc, "<given>")?;
    let document = given.replacen(alloc, old, new, 1)?;
    if document == given {
        return Ok(false);
    }
    reads_as(alloc, &document, wanted)
}

/// Whether a case of this verb is answered as it must be; false where there is no such verb.
fn is_right<'a>(
    alloc: Global,
    words: &mut Words<'a>,
    verb: &str,
    rest: &'a str,
) -> Result<bool, AllocError>
    ensures { IfOk result (λ right. IsJudged words.old verb.now rest.now right words.new) }
{
    match verb {
        "is" => is(alloc, words, "optimize", rest),
        "check" => is(alloc, words, "check", rest),
        "fault" => fault(alloc, words, rest),
        "value" => value(alloc, words, rest),
        "reads" | "form" | "json" => variant(alloc, words, verb, rest),
        _ => Ok(false),
    }
}

/// Reads a line, and tries the case where it is one. Refuses for want of memory alone.
pub fn tried<'a>(alloc: Global, words: &mut Words<'a>, line: &'a str) -> Result<Line, AllocError>
    ensures { IfOk result (λ found. IsRead words.old line.now found words.new) }
{
    if line.is_empty() || line.starts_with('#') {
        return Ok(Line::Given);
    }
    if line.starts_with('<') {
        let known = words.set_line(line);
        return Ok(if known { Line::Given } else { Line::Wrong });
    }
    let (verb, rest) = parted(line);
    let right = is_right(alloc, words, verb, rest)?;
    Ok(judged(right))
}

/// Reads lines, one after another, and tries those that are cases. Refuses for want of memory alone.
pub fn all_tried<'a>(
    alloc: Global,
    words: &mut Words<'a>,
    lines: &[&'a str],
) -> Result<Vec<Line>, AllocError>
    ensures { IfOk result (λ found. AreRead words.old lines.now found.items words.new) }
{
    let mut found = Vec::new(alloc);
    for line in lines {
        found.push(tried(alloc, words, line)?)?;
    }
    Ok(found)
}

/// How many lines are cases.
pub fn cases_among(found: &[Line]) -> usize
    ensures { result ≡ count_by is_case found.now }
{
    found.iter().filter(|line| **line != Line::Given).count()
}
