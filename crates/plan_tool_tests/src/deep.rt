//! Chains that are far too long for a plan. The limits themselves are told by documents.

use crate::streams::answer;
use std::alloc::Global;
use std::test::Fail;

/// The document of so many slices, each on the next, and a last node.
fn chained(alloc: Global, count: u32, last: &str) -> Result<String, Fail> {
    let mut text = String::from_str(alloc, r#"{"root":0,"nodes":["#)?;
    for i in 0..count {
        let input = i.saturating_add(1);
        let slice = format!(in alloc; r#"{{"op":"Slice","input":{input},"offset":0,"len":1}},"#)?;
        text.push_str(slice.as_str())?;
    }
    text.push_str(last)?;
    text.push_str(r#"],"exprs":[],"flags":1,"shared":false,"tables":null}"#)?;
    Ok(text)
}

/// The answer to the check of that document.
fn checked(alloc: Global, count: u32, last: &str) -> Result<String, Fail> {
    let document = chained(alloc, count, last)?;
    answer(alloc, &["check"], document.as_bytes(), 4096, 100)
}

#[test]
fn a_deep_chain_is_too_deep(rt: HostRuntime) -> Result<(), Fail> {
    let last = r#"{"frame":7,"op":"DataFrameScan","output":null,"schema":[["a","Int64"]]}"#;
    assert_eq!(rt; checked(rt.alloc(), 100000, last)?.as_str(), "7 ");
    Ok(())
}

#[test]
fn a_ring_is_no_tree(rt: HostRuntime) -> Result<(), Fail> {
    let last = r#"{"op":"Slice","input":0,"offset":0,"len":1}"#;
    let wanted = "5 {\"error\":{\"kind\":\"ComputeError\",\"node\":0,\"place\":0}}\n";
    assert_eq!(rt; checked(rt.alloc(), 99999, last)?.as_str(), wanted);
    Ok(())
}
