//! Worked values of the calls of plan_options.
use plan_core::{At, DataType, Items, PlSmallStr, PolarsError, Schema, TryClone};
use plan_options::*;
use plan_samples::{marks, names, schema};
use std::alloc::{AllocError, Global};

const A: (&str, DataType) = ("a", DataType::Int64);

const B: (&str, DataType) = ("b", DataType::String);

fn joined(how: JoinType, suffix: Option<PlSmallStr>) -> JoinArgs {
    JoinArgs {
        how,
        coalesce: JoinCoalesce::JoinSpecific,
        suffix,
        join_nulls: false,
        maintain_order: MaintainOrderJoin::default(),
        slice: None,
    }
}

/// The numbers of flags.
fn numbers() -> [u8; 6] {
    let scalar = FunctionFlags::RETURNS_SCALAR | FunctionFlags::ALLOW_EMPTY_INPUTS;
    [
        FunctionFlags::default().bits(),
        FunctionFlags::all().bits(),
        FunctionFlags::empty().bits(),
        scalar.bits(),
        FunctionFlags::from_bits_truncate(130).bits(),
        (!scalar & FunctionFlags::from_bits_truncate(130)).bits(),
    ]
}

/// Whether a number is some flags, and whether these contain those by default.
fn are_flags() -> [bool; 2] {
    let scalar = FunctionFlags::RETURNS_SCALAR | FunctionFlags::ALLOW_EMPTY_INPUTS;
    [
        FunctionFlags::from_bits(160) == Some(scalar),
        scalar.contains(FunctionFlags::default()),
    ]
}

/// Whether a function of these options checks lengths and works row by row, as it is by default, then by its rows, and then as one
/// that returns one value.
fn by_rows() -> [bool; 4] {
    let mut options = FunctionOptions::default();
    let lengths = options.check_lengths();
    let usual = options.is_elementwise();
    options.collect_groups = ApplyOptions::ElementWise;
    options.cast_options = Some(CastingRules::cast_to_supertypes());
    let by_rows = options.is_elementwise();
    options.flags = FunctionFlags::RETURNS_SCALAR;
    [lengths, usual, by_rows, options.is_elementwise()]
}

/// Whether unions and hconcats work in parallel and keep orders, and groups are cut, by default.
fn usual() -> [bool; 5] {
    let union = UnionOptions::from(UnionArgs::default());
    [
        union.parallel,
        union.maintain_order,
        union == UnionOptions::default(),
        HConcatOptions::default().parallel,
        GroupbyOptions::default().slice.is_some(),
    ]
}

/// Whether defaults agree that stand in several types.
fn agree() -> [bool; 3] {
    [
        UniqueKeepStrategy::default() == DistinctOptionsDSL::default().keep_strategy,
        UnsafeBool::default() == FunctionOptions::default().check_lengths,
        JoinCoalesce::default() == JoinCoalesce::JoinSpecific,
    ]
}

/// Whether a left join has the usual suffix and puts keys out as one.
fn left() -> [bool; 2] {
    let left = joined(JoinType::Left, None);
    [left.suffix() == "_right", left.should_coalesce()]
}

/// Whether all these are as they should be.
fn plain() -> [bool; 6] {
    [
        numbers() == [1, 255, 0, 160, 130, 2],
        are_flags() == [true, false],
        by_rows() == [true, false, true, false],
        usual() == [true, true, false, false, false],
        agree() == [true; 3],
        left() == [true; 2],
    ]
}

/// Whether a value is its copy.
fn is_copied<T: TryClone + PartialEq + Drop>(
    alloc: Global,
    made: Result<T, AllocError>,
) -> Result<bool, AllocError> {
    let value = made?;
    Ok(value.try_clone(alloc)? == value)
}

/// A full join with a suffix of its own.
fn full(alloc: Global) -> Result<JoinArgs, AllocError> {
    Ok(joined(JoinType::Full, Some(PlSmallStr::new(alloc, "_r")?)))
}

/// Whether a full join has its own suffix and puts keys out as one.
fn suffixed(alloc: Global) -> Result<[bool; 2], AllocError> {
    let full = full(alloc)?;
    Ok([full.suffix() == "_r", full.should_coalesce()])
}

/// The options of distinct rows by the column a, as they are asked.
fn asked(alloc: Global) -> Result<DistinctOptionsDSL, AllocError> {
    let mut subset = Items::new(alloc);
    subset.push(Selector(PlSmallStr::new(alloc, "a")?))?;
    let mut asked = DistinctOptionsDSL::default();
    asked.subset = Some(subset);
    Ok(asked)
}

/// The same as a node has them.
fn distinct(alloc: Global) -> Result<DistinctOptionsIR, AllocError> {
    Ok(DistinctOptionsIR {
        subset: Some(names(alloc, &["a"])?),
        maintain_order: true,
        keep_strategy: UniqueKeepStrategy::First,
        slice: None,
    })
}

/// The options of a sort by one key.
fn sort(alloc: Global) -> Result<SortMultipleOptions, AllocError> {
    Ok(SortMultipleOptions {
        descending: marks(alloc, &[true])?,
        nulls_last: Items::new(alloc),
        multithreaded: true,
        maintain_order: false,
        limit: Some(3),
    })
}

/// A text with names behind it, between brackets.
fn delimited(alloc: Global, text: &str, items: &[&str]) -> Result<String, AllocError> {
    let names = names(alloc, items)?;
    comma_delimited(alloc, String::from_str(alloc, text)?, names.as_slice())
}

/// Whether that is the text that it should be.
fn is_delimited(
    alloc: Global,
    text: &str,
    items: &[&str],
    wanted: &str,
) -> Result<bool, AllocError> {
    Ok(delimited(alloc, text, items)?.as_str() == wanted)
}

/// A text, with a text between brackets behind it.
fn delimited_text(alloc: Global) -> Result<String, AllocError> {
    let one = [String::from_str(alloc, "a")?];
    comma_delimited(alloc, String::from_str(alloc, "x")?, &one)
}

/// Whether that is the text that it should be.
fn is_text_delimited(alloc: Global) -> Result<bool, AllocError> {
    Ok(delimited_text(alloc)?.as_str() == "x(a)")
}

/// The merged columns of two schemas.
fn merged(
    alloc: Global,
    first: &[(&str, DataType)],
    second: &[(&str, DataType)],
) -> Result<Schema, PolarsError> {
    let schemas = [schema(alloc, first)?, schema(alloc, second)?];
    merge_schemas(alloc, &schemas)
}

/// Whether the columns of two schemas are merged in order.
fn are_merged(alloc: Global) -> Result<bool, PolarsError> {
    let merged = merged(alloc, &[A], &[B])?;
    Ok(merged == schema(alloc, &[A, B])?)
}

/// Whether two schemas with one name are refused at the second.
fn are_refused(alloc: Global) -> bool {
    let place = 1;
    merged(alloc, &[A], &[B, A]).err() == Some(PolarsError::Duplicate(At { node: None, place }))
}

/// Whether a join has its own suffix, and values are their copies.
fn copies(alloc: Global) -> Result<[bool; 5], AllocError> {
    Ok([
        suffixed(alloc)? == [true, false],
        is_copied(alloc, full(alloc))?,
        is_copied(alloc, asked(alloc))?,
        is_copied(alloc, distinct(alloc))?,
        is_copied(alloc, sort(alloc))?,
    ])
}

/// Whether texts stand between brackets as they should.
fn texts(alloc: Global) -> Result<[bool; 4], AllocError> {
    Ok([
        is_delimited(alloc, "", &["a", "b"], "(a, b)")?,
        is_delimited(alloc, "", &[], "()")?,
        is_delimited(alloc, "x", &["a"], "x(a)")?,
        is_text_delimited(alloc)?,
    ])
}

#[test]
fn options_have_worked_values(rt: HostRuntime) {
    assert!(rt; plain() == [true; 6]);
    assert!(rt; copies(rt.alloc()) == Ok([true; 5]));
    assert!(rt; texts(rt.alloc()) == Ok([true; 4]));
    assert!(rt; are_merged(rt.alloc()) == Ok(true));
    assert!(rt; are_refused(rt.alloc()));
}
