//! The answers to a document: of a whole command, and of its reading alone.
ghost use Rattle.std.specs.Prelude.{◌≡◌, ◌↔◌, IsTrue, IfOk, codes, string_bytes};
ghost use Rattle.plan_doc.specs.Document.{doc_of};
ghost use Rattle.cases.specs.Endings.{Ended, HasText, MayEnd, rows_text};
ghost use Rattle.cases.specs.Lines.{line_of};
ghost use Rattle.cases.specs.Readings.{word_of};

use plan_doc::{ReadError, read_document};
use plan_stream::{MemorySink, MemorySource};
use plan_tool::{Status, run};
use std::alloc::{AllocError, Global};

/// A text with the end of its line; nothing for an empty text.
fn line_of(alloc: Global, text: &str) -> Result<String, AllocError>
    ensures { IfOk result (λ line. string_bytes line ≡ line_of text.now) }
{
    let mut line = String::from_str(alloc, text)?;
    if !text.is_empty() {
        line.push_str("\n")?;
    }
    Ok(line)
}

/// Whether a command ended with this status, and wrote this text as a line and nothing else, or nothing where the text is
/// empty.
fn has_told(
    alloc: Global,
    code: u8,
    bytes: &[u8],
    status: u8,
    text: &str,
) -> Result<bool, AllocError>
    ensures { IfOk result (λ right. IsTrue right ↔ ((code ≡ status) × (bytes.now ≡ line_of text.now))) }
{
    let line = line_of(alloc, text)?;
    Ok(code == status && bytes == line.as_bytes())
}

/// The exit status with which a command ends on a document, and the sink that it wrote to. Refuses where memory runs out,
/// that of the sink too.
fn told(alloc: Global, command: &str, document: &str) -> Result<(u8, MemorySink), AllocError>
    ensures { IfOk result (λ told. MayEnd command.now document.now told.0 told.1.held) }
{
    let words = [String::from_str(alloc, command)?];
    let mut source = MemorySource::new(document.as_bytes(), 4096);
    let mut sink = MemorySink::new(alloc, 100000)?;
    let mut extra = Vec::new(alloc);
    match run(alloc, &words, &mut source, &mut sink, &mut extra) {
        Status::OutOfMemory | Status::WriteFault => Err(AllocError),
        status => Ok((status.code(), sink)),
    }
}

/// Whether a command answers a document with this status, and writes this line and nothing else, or nothing where the
/// line is empty.
pub fn is_answered(
    alloc: Global,
    command: &str,
    document: &str,
    status: u8,
    line: &str,
) -> Result<bool, AllocError>
    ensures { IfOk result (λ right. Ended command.now document.now (λ code bytes.
        IsTrue right ↔ ((code ≡ status) × (bytes ≡ line_of line.now)))) }
{
    let (code, sink) = told(alloc, command, document)?;
    has_told(alloc, code, sink.bytes(), status, line)
}

/// What a listing has of rows of one column `r`, of a type and with values, up to their height.
#[tactic(auto, unfolding(crate::specs::Endings::rows_text))]
fn rows_text(alloc: Global, dtype: &str, values: &str) -> Result<String, AllocError>
    ensures { IfOk result (λ text. string_bytes text ≡ rows_text dtype.now values.now) }
{
    format!(in alloc; r#""rows":{{"columns":[["r","{dtype}",{values}]],"height":"#)
}

/// Whether bytes are a text in which another one stands.
#[tactic(auto, using(std::proofs::lemmas::Str::Pattern::contains_text))]
fn has_text(bytes: &[u8], text: &str) -> bool
    ensures { IsTrue result ↔ HasText bytes.now text.now }
{
    let Ok(whole) = str::from_utf8(bytes) else {
        return false;
    };
    whole.contains(text)
}

/// Whether a command ended well, and what it wrote has rows of one column `r`, of this type and with these values.
fn has_rows(
    alloc: Global,
    code: u8,
    bytes: &[u8],
    dtype: &str,
    values: &str,
) -> Result<bool, AllocError>
    ensures { IfOk result (λ right. IsTrue right ↔ ((code ≡ 0) × HasText bytes.now (rows_text dtype.now values.now))) }
{
    let rows = rows_text(alloc, dtype, values)?;
    Ok(code == 0 && has_text(bytes, &rows))
}

/// Whether `optimize` answers a document with rows of one column `r`, of this type and with these values.
pub fn has_values(
    alloc: Global,
    document: &str,
    dtype: &str,
    values: &str,
) -> Result<bool, AllocError>
    ensures { IfOk result (λ right. Ended (codes "optimize") document.now (λ code bytes.
        IsTrue right ↔ ((code ≡ 0) × HasText bytes (rows_text dtype.now values.now)))) }
{
    let (code, sink) = told(alloc, "optimize", document)?;
    has_rows(alloc, code, sink.bytes(), dtype, values)
}

/// Whether a document reads as `wanted`: as a document, as JSON of another form, or as no JSON.
pub fn reads_as(alloc: Global, document: &str, wanted: &str) -> Result<bool, AllocError>
    ensures { IfOk result (λ right. IsTrue right ↔ (wanted.now ≡ word_of (doc_of document.now))) }
{
    match read_document(alloc, document.as_bytes()) {
        Ok(_) => Ok(wanted == "reads"),
        Err(ReadError::Form) => Ok(wanted == "form"),
        Err(ReadError::NotJson) => Ok(wanted == "json"),
        Err(ReadError::OutOfMemory) => Err(AllocError),
    }
}
