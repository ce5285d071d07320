//! Lists of names, of columns, of marks and of entries, which tests of several crates are made of.
#![tactic(auto)]

ghost use Rattle.std.specs.Prelude.{◌≡◌, [], map, IfOk};
ghost use Rattle.plan_core.specs.Columns.{with_types};

use plan_core::{DataType, Items, Node, PlSmallStr, Schema};
use std::alloc::{AllocError, Global};

/// Names, in order.
pub fn names(alloc: Global, texts: &[&str]) -> Result<Items<PlSmallStr>, AllocError>
    ensures { IfOk result (λ names. names ≡ map (λ t. t.now) texts.now) }
{
    let mut names = Items::new(alloc);
    for text in texts {
        names.push(PlSmallStr::new(alloc, text)?)?;
    }
    Ok(names)
}

/// Columns, in order.
pub fn schema(alloc: Global, columns: &[(&str, DataType)]) -> Result<Schema, AllocError>
    ensures { IfOk result (λ schema. schema ≡ with_types [] (map (λ c. (c.0.now, c.1)) columns.now)) }
{
    let mut schema = Schema::new(alloc);
    for (column, data_type) in columns {
        schema.with_column(PlSmallStr::new(alloc, column)?, *data_type)?;
    }
    Ok(schema)
}

/// Marks, in order.
pub fn marks(alloc: Global, given: &[bool]) -> Result<Items<bool>, AllocError>
    ensures { IfOk result (λ marks. marks ≡ given.now) }
{
    let mut marks = Items::new(alloc);
    for mark in given {
        marks.push(*mark)?;
    }
    Ok(marks)
}

/// The entries of these numbers, in order.
pub fn links(alloc: Global, numbers: &[usize]) -> Result<Items<Node>, AllocError>
    ensures { IfOk result (λ links. map (λ n. n.0) links ≡ numbers.now) }
{
    let mut links = Items::new(alloc);
    for number in numbers {
        links.push(Node(*number))?;
    }
    Ok(links)
}
