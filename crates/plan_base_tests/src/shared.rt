//! Worked values of the calls of plan_core.
use plan_core::*;
use plan_samples::schema;
use std::alloc::{AllocError, Global};

const A: (&str, DataType) = ("a", DataType::Int64);

const B: (&str, DataType) = ("b", DataType::Boolean);

const C: (&str, DataType) = ("c", DataType::Int64);

/// Of an arena of two numbers: the numbers of its entries, one that is taken, and what stands in its place.
fn taken(alloc: Global) -> Result<[u64; 4], AllocError> {
    let mut arena: Arena<u64> = Arena::new(alloc);
    let first = arena.add(7)?;
    let second = arena.add(8)?;
    let taken = arena.take(first);
    Ok([first.0 as u64, second.0 as u64, taken, *arena.get(first)])
}

/// What an arena of two numbers holds after each has been written: the one that was replaced, and both as they are.
fn written(alloc: Global) -> Result<[u64; 3], AllocError> {
    let mut arena: Arena<u64> = Arena::with_capacity(alloc, 2)?;
    let first = arena.add(7)?;
    let second = arena.add(8)?;
    arena.swap(first, second);
    let old = arena.replace(first, 9);
    arena.put(second, 5);
    *arena.get_mut(first) += 1;
    Ok([old, *arena.get(first), *arena.get(second)])
}

/// The items 1 and 2.
fn two(alloc: Global) -> Result<Items<u32>, AllocError> {
    let mut items = Items::new(alloc);
    items.push(1)?;
    items.push(2)?;
    Ok(items)
}

/// The last of two items in a copy, the last one that is popped, and how many are left.
fn items(alloc: Global) -> Result<(Option<u32>, Option<u32>, usize), AllocError> {
    let mut items = two(alloc)?;
    let last = items.try_clone(alloc)?.pop();
    let popped = items.pop();
    Ok((last, popped, items.len()))
}

/// The numbers 1 and 2 in a small vector.
fn two_units(alloc: Global) -> Result<UnitVec<u32>, AllocError> {
    let mut items = UnitVec::new(alloc);
    items.push(1)?;
    items.push(2)?;
    Ok(items)
}

/// Of these the last in a copy, the last one that is popped, and how many are left.
fn units(alloc: Global) -> Result<(Option<u32>, Option<u32>, usize), AllocError> {
    let mut items = two_units(alloc)?;
    let last = items.try_clone(alloc)?.pop();
    let popped = items.pop();
    Ok((last, popped, items.len()))
}

/// A row index.
fn row_index(alloc: Global) -> Result<Option<RowIndex>, AllocError> {
    let name = PlSmallStr::new(alloc, "a")?;
    Ok(Some(RowIndex { name, offset: 4 }))
}

/// Whether a value is its copy.
fn is_copied<T: TryClone + PartialEq + Drop>(
    alloc: Global,
    made: Result<T, AllocError>,
) -> Result<bool, AllocError> {
    let value = made?;
    Ok(value.try_clone(alloc)? == value)
}

/// Gives the name a a type, and tells the one that it had.
fn put(
    alloc: Global,
    schema: &mut Schema,
    dtype: DataType,
) -> Result<Option<DataType>, AllocError> {
    schema.with_column(PlSmallStr::new(alloc, "a")?, dtype)
}

/// The types that a name had before it is given one, and another, and when it is removed; and how many columns are left.
fn replaced(alloc: Global) -> Result<([Option<DataType>; 3], usize), AllocError> {
    let mut schema = Schema::new(alloc);
    let none = put(alloc, &mut schema, DataType::Int64)?;
    let old = put(alloc, &mut schema, DataType::String)?;
    let removed = schema.shift_remove("a");
    Ok(([none, old, removed], schema.len()))
}

/// Whether a name that is there is found, and one that isn't is refused at the first item.
fn are_found(schema: &Schema) -> bool {
    let has_type = matches!(schema.try_get("a"), Ok(DataType::Int64));
    let is_refused =
        matches!(schema.try_get("z"), Err(PolarsError::SchemaFieldNotFound(at)) if at.place == 0);
    let places = (schema.index_of("a"), schema.index_of("z"));
    has_type && is_refused && places == (Some(0), None)
}

/// Whether names are found so in the column a.
fn names_are_found(alloc: Global) -> Result<bool, AllocError> {
    let only = schema(alloc, &[A])?;
    Ok(are_found(&only))
}

/// Puts a column that is not there at the front.
fn put_first(alloc: Global, schema: &mut Schema, name: &str) -> Result<(), AllocError> {
    let name = PlSmallStr::new(alloc, name)?;
    if schema.get(name.as_str()).is_none() {
        schema.insert_at_index(0, name, DataType::Boolean)?;
    }
    Ok(())
}

/// The column a, given columns at the front and at the end.
fn merged(alloc: Global) -> Result<Schema, AllocError> {
    let mut columns = schema(alloc, &[A])?;
    put_first(alloc, &mut columns, "b")?;
    columns.merge(schema(alloc, &[C])?)?;
    Ok(columns)
}

/// Whether these are the columns that they should be.
fn are_merged(alloc: Global) -> Result<bool, AllocError> {
    let merged = merged(alloc)?;
    Ok(merged == schema(alloc, &[B, A, C])?)
}

/// The text of an error.
fn printed(alloc: Global, error: PolarsError) -> Result<String, AllocError> {
    format!(in alloc; "{error}")
}

/// Whether the text of an error is the one that it should be.
fn is_printed(alloc: Global) -> Result<bool, AllocError> {
    let error = PolarsError::from(AllocError);
    Ok(printed(alloc, error)?.as_str() == "out of memory")
}

/// Whether values are their copies.
fn copies(alloc: Global) -> Result<[bool; 3], AllocError> {
    Ok([
        is_copied(alloc, merged(alloc))?,
        is_copied(alloc, row_index(alloc))?,
        is_copied(alloc, Ok(FileScanOptions::default()))?,
    ])
}

/// Whether arenas and lists hold what they should.
fn lists(alloc: Global) -> Result<[bool; 4], AllocError> {
    Ok([
        taken(alloc)? == [0, 1, 7, 0],
        written(alloc)? == [8, 10, 5],
        items(alloc)? == (Some(2), Some(2), 1),
        units(alloc)? == (Some(2), Some(2), 1),
    ])
}

/// Whether schemas hold what they should, and an error is printed.
fn schemas(alloc: Global) -> Result<[bool; 4], AllocError> {
    let types = [None, Some(DataType::Int64), Some(DataType::String)];
    Ok([
        replaced(alloc)? == (types, 0),
        names_are_found(alloc)?,
        are_merged(alloc)?,
        is_printed(alloc)?,
    ])
}

/// The numbers of flags.
fn numbers() -> [u32; 7] {
    let pushed = OptFlags::PROJECTION_PUSHDOWN | OptFlags::PREDICATE_PUSHDOWN;
    [
        OptFlags::default().bits(),
        OptFlags::schema_only().bits(),
        OptFlags::all().bits(),
        OptFlags::empty().bits(),
        pushed.bits(),
        OptFlags::from_bits_truncate(7).bits(),
        (!pushed & OptFlags::from_bits_truncate(13)).bits(),
    ]
}

/// Whether numbers are flags.
fn are_flags() -> [bool; 2] {
    [
        OptFlags::from_bits(5).is_some(),
        OptFlags::from_bits(2).is_some(),
    ]
}

/// The default marks of a projection, merged with three that are unset.
fn marks() -> [bool; 3] {
    let none = ProjectionOptions {
        run_parallel: false,
        duplicate_check: false,
        should_broadcast: false,
    };
    let merged = ProjectionOptions::default().merge_options(&none);
    [
        merged.run_parallel,
        merged.duplicate_check,
        merged.should_broadcast,
    ]
}

/// Whether all these are as they should be.
fn plain() -> [bool; 3] {
    [
        numbers() == [254909, 131088, 262141, 0, 5, 5, 8],
        are_flags() == [true, false],
        marks() == [false, false, true],
    ]
}

#[test]
fn calls_give_worked_values(rt: HostRuntime) {
    assert!(rt; plain() == [true; 3]);
    assert!(rt; lists(rt.alloc()) == Ok([true; 4]));
    assert!(rt; schemas(rt.alloc()) == Ok([true; 4]));
    assert!(rt; copies(rt.alloc()) == Ok([true; 3]));
}
