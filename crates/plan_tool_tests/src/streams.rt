//! The command on other words, and on sources and sinks that are short or fail.

use crate::fakes::{FailingSink, FailingSource, call};
use plan_stream::{MemorySink, MemorySource};
use plan_tool::{LIMIT, run};
use std::alloc::Global;
use std::test::Fail;

const GOOD: &str =
    r#"{"root":0,"nodes":[{"op":"SimpleProjection","input":1,"columns":[["a","Int64"]]},{"op":"Filter","input":2,"predicate":[0,"col","b"]},{"op":"Scan","kind":"Parquet","sources":{"paths":["t"]},"schema":[["a","Int64"],["b","Int64"],["c","String"]],"reader":[["a","Int64"],["b","Int64"],["c","String"]],"hive":null,"output":null,"columns":null,"row_index":null,"path_column":null,"rechunk":false,"slice":null,"predicate":null}],"exprs":[{"op":"BinaryExpr","operator":"Gt","left":1,"right":2},{"op":"Column","name":"b"},{"op":"Literal","type":"Int64","value":1}],"flags":1,"shared":false,"tables":null}"#;

const LISTING: &str =
    r#"{"plan":{"exprs":[{"left":1,"op":"BinaryExpr","operator":"Gt","right":2},{"name":"b","op":"Column"},{"op":"Literal","type":"Int64","value":1}],"nodes":[{"columns":[["a","Int64"]],"input":1,"op":"SimpleProjection"},{"input":2,"op":"Filter","predicate":[0,"col","b"]},{"columns":[["a","Int64"],["b","Int64"]],"input":3,"op":"SimpleProjection"},{"columns":["a","b"],"hive":null,"kind":"Parquet","op":"Scan","output":[["a","Int64"],["b","Int64"]],"path_column":null,"predicate":null,"reader":[["a","Int64"],["b","Int64"],["c","String"]],"rechunk":false,"row_index":null,"schema":[["a","Int64"],["b","Int64"],["c","String"]],"slice":null,"sources":{"paths":["t"]}}],"root":0},"reads":[["a","b"]],"rows":null}"#;

/// The status of a call, and what the sink holds after it.
pub fn answer(
    alloc: Global,
    words: &[&str],
    bytes: &[u8],
    piece: usize,
    room: usize,
) -> Result<String, Fail> {
    let words = call(alloc, words)?;
    let mut source = MemorySource::new(bytes, piece.max(1));
    let mut sink = MemorySink::new(alloc, room)?;
    let mut extra = Vec::new(alloc);
    let status = run(alloc, words.as_slice(), &mut source, &mut sink, &mut extra);
    told(alloc, status.code(), sink.bytes())
}

/// A status and a text.
fn told(alloc: Global, code: u8, bytes: &[u8]) -> Result<String, Fail> {
    match str::from_utf8(bytes) {
        Ok(text) => Ok(format!(in alloc; "{code} {text}")?),
        Err(_) => Err(Fail::from("no text")),
    }
}

#[test]
fn other_words_are_no_command(rt: HostRuntime) -> Result<(), Fail> {
    for words in [
        [].as_slice(),
        &[""],
        &["checks"],
        &["Optimize"],
        &["optimize", "x"],
        &["check", "optimize"],
    ] {
        let told = answer(rt.alloc(), words, GOOD.as_bytes(), 4096, 100000)?;
        assert_eq!(rt; told.as_str(), "2 ");
    }
    Ok(())
}

#[test]
fn other_bytes_are_no_documents(rt: HostRuntime) -> Result<(), Fail> {
    for (bytes, wanted) in [
        (b"".as_slice(), "3 "),
        (b"[]", "4 "),
        (b"null", "4 "),
        (b"\"\xff\"", "3 "),
    ] {
        let told = answer(rt.alloc(), &["check"], bytes, 4096, 100)?;
        assert_eq!(rt; told.as_str(), wanted);
    }
    Ok(())
}

/// The status of arrays in one another, so many.
fn nested(alloc: Global, levels: usize) -> Result<String, Fail> {
    let open = "[".repeat(alloc, levels)?;
    let close = "]".repeat(alloc, levels)?;
    let text = format!(in alloc; "{open}{close}")?;
    answer(alloc, &["check"], text.as_bytes(), 4096, 100)
}

#[test]
fn arrays_have_a_largest_depth(rt: HostRuntime) -> Result<(), Fail> {
    assert_eq!(rt; nested(rt.alloc(), 127)?.as_str(), "4 ");
    assert_eq!(rt; nested(rt.alloc(), 128)?.as_str(), "3 ");
    Ok(())
}

#[test]
fn a_schema_is_written_by_check(rt: HostRuntime) -> Result<(), Fail> {
    let told = answer(rt.alloc(), &["check"], GOOD.as_bytes(), 100, 100)?;
    assert_eq!(rt; told.as_str(), "0 {\"schema\":[[\"a\",\"Int64\"]]}\n");
    Ok(())
}

#[test]
fn a_document_may_come_in_pieces(rt: HostRuntime) -> Result<(), Fail> {
    let wanted = format!(in rt.alloc(); "0 {LISTING}\n")?;
    for piece in [1, 100, 4096] {
        let told = answer(rt.alloc(), &["optimize"], GOOD.as_bytes(), piece, 100000)?;
        assert_eq!(rt; told.as_str(), wanted.as_str(), "by {piece}");
    }
    Ok(())
}

#[test]
fn a_full_sink_holds_a_front_of_the_text(rt: HostRuntime) -> Result<(), Fail> {
    for (room, wanted) in [
        (0, "9 "),
        (
            50,
            r#"9 {"plan":{"exprs":[{"left":1,"op":"BinaryExpr","ope"#,
        ),
    ] {
        let told = answer(rt.alloc(), &["optimize"], GOOD.as_bytes(), 4096, room)?;
        assert_eq!(rt; told.as_str(), wanted, "in {room}");
    }
    Ok(())
}

/// The answer to so many blanks.
fn blanks(alloc: Global, length: usize) -> Result<String, Fail> {
    let blanks = vec![in alloc; b' '; length]?;
    answer(alloc, &["optimize"], blanks.as_slice(), 4096, 100)
}

#[test]
fn a_document_has_a_largest_size(rt: HostRuntime) -> Result<(), Fail> {
    assert_eq!(rt; LIMIT, 16777216);
    assert_eq!(rt; blanks(rt.alloc(), 16777216)?.as_str(), "3 ");
    assert_eq!(rt; blanks(rt.alloc(), 16777217)?.as_str(), "7 ");
    Ok(())
}

/// The answer to bytes whose source then fails, and how often it did.
fn failing(alloc: Global, bytes: &[u8]) -> Result<(String, u64), Fail> {
    let words = call(alloc, &["optimize"])?;
    let mut source = FailingSource { bytes, faults: 0 };
    let mut sink = MemorySink::new(alloc, 100)?;
    let mut extra = Vec::new(alloc);
    let status = run(alloc, words.as_slice(), &mut source, &mut sink, &mut extra);
    let told = told(alloc, status.code(), sink.bytes())?;
    Ok((told, source.faults))
}

#[test]
fn a_source_may_fail(rt: HostRuntime) -> Result<(), Fail> {
    let (front, _) = GOOD.as_bytes().split_at(100);
    for bytes in [front, GOOD.as_bytes()] {
        let (told, faults) = failing(rt.alloc(), bytes)?;
        assert_eq!(rt; (told.as_str(), faults), ("8 ", 1));
    }
    Ok(())
}

/// The answer to a document whose sink fails after so many writes, and at its flush; and how often it did.
fn cut(alloc: Global, writes: usize) -> Result<(String, u64), Fail> {
    let words = call(alloc, &["optimize"])?;
    let mut source = MemorySource::new(GOOD.as_bytes(), 100);
    let mut sink = FailingSink {
        bytes: Vec::new(alloc),
        writes,
        faults: 0,
        clean: true,
    };
    let mut extra = Vec::new(alloc);
    let status = run(alloc, words.as_slice(), &mut source, &mut sink, &mut extra);
    let told = told(alloc, status.code(), sink.bytes.as_slice())?;
    Ok((told, sink.faults))
}

#[test]
fn a_sink_may_fail(rt: HostRuntime) -> Result<(), Fail> {
    let whole = format!(in rt.alloc(); "9 {LISTING}\n")?;
    for (writes, wanted) in [(1, r#"9 {"plan":{""#), (1000, whole.as_str())] {
        let (told, faults) = cut(rt.alloc(), writes)?;
        assert_eq!(rt; (told.as_str(), faults), (wanted, 1), "after {writes}");
    }
    Ok(())
}
