//! Words in angle brackets, each with the text that it stands for.
ghost use Rattle.std.specs.Prelude.{◌≡◌, ℕ, List, codes, filter, map, IfOk, IfSome, IfNone, string_bytes};
ghost use Rattle.std.specs.Str.Lines.{lines};
ghost use Rattle.cases.specs.Words.{AreWordsOf, gives_word, has_word, IsCut, IsDefinition, IsFilled, IsSet, IsTrimmed, Lacks, with_text};

use std::alloc::{AllocError, Global};
use std::marker::Model;

/// The words, in the order in which they are replaced: a text may have words that come later.
#[derive(Drop)]
pub struct Words<'a> {
    words: Vec<(&'a str, &'a str)>,
}

impl<'a> Model for Words<'a> {
    ghost use Rattle.std.specs.Prelude.{ℕ, List, map};

    ghost Value = { List (List ℕ × List ℕ) };

    ghost view = { λ s. map (λ w. (w.0.now, w.1.now)) s.words.items };
}

/// What stands before a mark and behind it, where it first stands in a text; None where it stands nowhere.
pub fn cut<'a>(text: &'a str, mark: &str) -> Option<(&'a str, &'a str)>
    ensures parts { IfSome result (λ parts. IsCut mark.now text.now parts.0.now parts.1.now) }
    ensures none { IfNone result (Lacks mark.now text.now) }
{
    text.split_once(mark)
}

/// A text without the blank that it may begin with.
pub fn trimmed(text: &str) -> &str
    ensures { IsTrimmed text.now result.now }
{
    text.strip_prefix(' ').unwrap_or(text)
}

/// The word and its text, of a line `<word> = text` or `<word> =`; None for a line without ` =`.
fn defined(line: &str) -> Option<(&str, &str)>
    ensures parts { IfSome result (λ p. IsDefinition line.now p.0.now p.1.now) }
    ensures none { IfNone result (Lacks (codes " =") line.now) }
{
    let (word, rest) = cut(line, " =")?;
    Some((word, trimmed(rest)))
}

/// The lines of a text. Refuses for want of memory alone.
pub fn lines_of(alloc: Global, text: &str) -> Result<Vec<&str>, AllocError>
    ensures { IfOk result (λ found. map (λ line. line.now) found.items ≡ lines text.now) }
{
    text.lines().collect(alloc)
}

/// The words that lines give, in their order, each with its text.
fn words_of<'a>(alloc: Global, lines: &[&'a str]) -> Result<Vec<(&'a str, &'a str)>, AllocError>
    ensures { IfOk result (λ words. AreWordsOf
        (filter gives_word (map (λ line. line.now) lines.now))
        (map (λ word. (word.0.now, word.1.now)) words.items)) }
{
    let mut words = Vec::new(alloc);
    for line in lines {
        if line.starts_with('<') {
            words.push(defined(line).unwrap_or((line, "")))?;
        }
    }
    Ok(words)
}

impl<'a> Words<'a> {
    /// The words that the lines of a file give, in their order. Refuses for want of memory alone.
    pub fn new(alloc: Global, file: &'a str) -> Result<Self, AllocError>
        ensures { IfOk result (AreWordsOf (filter gives_word (lines file.now))) }
    {
        let lines = lines_of(alloc, file)?;
        let words = words_of(alloc, &lines)?;
        Ok(Words { words })
    }

    /// Gives a word that is there another text. Whether it is there.
    pub fn set(&mut self, word: &str, text: &'a str) -> bool
        ensures known { result ≡ has_word self.old word.now }
        ensures texts { self.new ≡ with_text self.old word.now text.now }
    {
        for at in 0..self.words.len() {
            if self.words[at].0 == word {
                self.words[at].1 = text;
                return true;
            }
        }
        false
    }

    /// Gives the word of a line another text. Whether the line has such a form, and the word is there.
    pub fn set_line(&mut self, line: &'a str) -> bool
        ensures { IsSet self.old line.now result self.new }
    {
        match defined(line) {
            Some((word, text)) => self.set(word, text),
            None => false,
        }
    }

    /// The text with each word replaced wherever it stands, one word after another. Refuses for want of memory alone.
    pub fn full(&self, alloc: Global, text: &str) -> Result<String, AllocError>
        ensures { IfOk result (λ full. IsFilled self.now text.now (string_bytes full)) }
    {
        let mut made = String::from_str(alloc, text)?;
        for (word, meaning) in &self.words {
            made = made.replace(alloc, *word, *meaning)?;
        }
        Ok(made)
    }
}
