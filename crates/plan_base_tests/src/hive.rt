//! What paths tell of hive columns.
use plan_core::{At, DataType, Items, PlSmallStr, PlainType, PolarsError, PolarsResult, Schema};
use plan_hive::hive_partitions_from_paths;
use plan_samples::{names, schema};
use plan_scan::{ColumnStats, HivePartitions};
use plan_table::AnyValue;
use std::alloc::{AllocError, Global};

/// Paths that are written here.
type Texts = &'static [&'static str];

/// Columns that are written here.
type Typed = &'static [(&'static str, DataType)];

const WHOLE: DataType = DataType::Int64;

const TEXT: DataType = DataType::String;

const TRUTH: DataType = DataType::Boolean;

const LIST: DataType = DataType::List(PlainType::Int64);

/// Paths and what they tell.
#[derive(Clone, Copy)]
struct Case {
    paths: Texts,
    /// Where the first path's folders start that may name columns.
    start: usize,
    /// The types that are told, if there are any.
    types: Typed,
    /// The columns that a reader finds.
    reader: Typed,
    /// Each part as its columns, each with the letter of its type, its value and a comma behind it, and then a semicolon; `none`; or
    /// the kind and the place of a refusal.
    told: &'static str,
}

/// Paths alone, and what they tell.
const PLAIN: &[(Texts, &str)] = &[
    (&["/a=1=2/f"], "none"),
    (&["/a=*/f"], "none"),
    (&["/a/f"], "none"),
    (&["/column=1.5/f"], "column S 1.5,;"),
    (&["/x=%FF/f"], "none"),
    (&["x=1"], "none"),
    (&["/x=%C3%A9/f"], "x S é,;"),
    (&["/x=%C3/%A9/f"], "none"),
    (&["/x=%C3%A9%C3/f"], "none"),
    (&["/x=é/f"], "x S é,;"),
    (&["/%78=1/f"], "%78 I 1,;"),
    (&["/x=1%3D2/f"], "x S 1=2,;"),
    (&["/x=%2A/f"], "x S *,;"),
    (&["/*x=1/f"], "*x I 1,;"),
    (&["/x=1*/f"], "none"),
    (&["/x=1/f/"], "x I 1,;"),
    (&["/x=1/"], "x I 1,;"),
    (&["/x=1//f"], "x I 1,;"),
    (&["x=1/f"], "x I 1,;"),
    (&["=1/f"], " I 1,;"),
    (&["/x=%/f"], "x S %,;"),
    (&["/x=a%2Fb/f"], "x S a/b,;"),
    (&["/x==/f"], "none"),
    (&["/x=1/y=/f"], "x I 1,y S null,;"),
    (&["/b=1/a=2/f", "/a=3/b=4/f"], "b I 1,a I 2,;b I 4,a I 3,;"),
    (&["/x=9223372036854775808/f"], "x S 9223372036854775808,;"),
    (&["/x=9223372036854775807/f"], "x I 9223372036854775807,;"),
    (&["/x=-9223372036854775808/f"], "x I -9223372036854775808,;"),
    (&["/x=-9223372036854775809/f"], "x S -9223372036854775809,;"),
    (&["/x=-/f"], "x S -,;"),
    (&["/x=/f"], "x S null,;"),
    (&["/x=-0/f"], "x I 0,;"),
    (&["/x=007/f"], "x I 7,;"),
    (&["/x=+1/f"], "x S +1,;"),
    (&["/x=--1/f"], "x S --1,;"),
    (&["/x=%31/f"], "x I 1,;"),
    (&["/x=true/f"], "x B true,;"),
    (&["/x=True/f"], "x S True,;"),
    (&["/x=__HIVE_DEFAULT_PARTITION__/f"], "x S null,;"),
    (&["/x=%5F_HIVE_DEFAULT_PARTITION__/f"], "x S null,;"),
    (
        &["/x=true/f", "/x=/f", "/x=false/f"],
        "x B true,;x B null,;x B false,;",
    ),
    (&["/x=true/f", "/x=1/f"], "x S true,;x S 1,;"),
    (&["/x=1/f", "/x=/f"], "x I 1,;x I null,;"),
    (&["/x=1/f", "/x=a/f"], "x S 1,;x S a,;"),
    (&["/x=/f", "/x=2/f"], "x I null,;x I 2,;"),
    (&["/x=1/x=2/f"], "Duplicate 0"),
    (&["/x=1/f", "/y=1/f"], "NotFound 1"),
    (&["/x=1/f", "/x=1/x=1/f"], "Duplicate 1"),
    (&["/x=1/f", "/d/f"], "Compute 1"),
    (&["/x=1/f", "/x=1/y=2/f"], "NotFound 1"),
    (&["/x=1/y=2/f", "/x=1/f"], "Compute 1"),
    (&["/d/f", "/x=1/f"], "none"),
];

/// Paths from some place on, with types, or beside what a reader finds.
const CASES: &[Case] = &[
    Case {
        paths: &["/d"],
        start: 9,
        types: &[],
        reader: &[],
        told: "Compute 0",
    },
    Case {
        paths: &["/é/x=1/f"],
        start: 2,
        types: &[],
        reader: &[],
        told: "Compute 0",
    },
    Case {
        paths: &["/d"],
        start: 2,
        types: &[],
        reader: &[],
        told: "none",
    },
    Case {
        paths: &["/x=1/f", ""],
        start: 1,
        types: &[],
        reader: &[],
        told: "Compute 1",
    },
    Case {
        paths: &[
            "/d/y=2020/m=a%20b/f0",
            "/d/y=__HIVE_DEFAULT_PARTITION__/m=c/f1",
        ],
        start: 3,
        types: &[],
        reader: &[],
        told: "y I 2020,m S a b,;y I null,m S c,;",
    },
    Case {
        paths: &[
            "/d/y=2020/m=a%20b/f0",
            "/d/y=__HIVE_DEFAULT_PARTITION__/m=c/f1",
            "/d/y=1/f2",
        ],
        start: 3,
        types: &[],
        reader: &[],
        told: "Compute 2",
    },
    Case {
        paths: &[],
        start: 7,
        types: &[],
        reader: &[],
        told: "none",
    },
    Case {
        paths: &["/x=1/f"],
        start: 0,
        types: &[("z", WHOLE)],
        reader: &[],
        told: "NotFound 0",
    },
    Case {
        paths: &["/d/f"],
        start: 0,
        types: &[("z", WHOLE)],
        reader: &[],
        told: "Compute 0",
    },
    Case {
        paths: &["/x=abc/f"],
        start: 0,
        types: &[("x", WHOLE)],
        reader: &[],
        told: "Compute 0",
    },
    Case {
        paths: &["/x=1/f"],
        start: 0,
        types: &[("x", TEXT)],
        reader: &[],
        told: "x S 1,;",
    },
    Case {
        paths: &["/x=1/f"],
        start: 0,
        types: &[("x", WHOLE)],
        reader: &[("x", TEXT)],
        told: "x I 1,;",
    },
    Case {
        paths: &["/x=1/f"],
        start: 0,
        types: &[("x", TRUTH)],
        reader: &[],
        told: "Compute 0",
    },
    Case {
        paths: &["/x=/f"],
        start: 0,
        types: &[("x", LIST)],
        reader: &[],
        told: "x L null,;",
    },
    Case {
        paths: &["/x=1/f"],
        start: 0,
        types: &[("x", LIST)],
        reader: &[],
        told: "Compute 0",
    },
    Case {
        paths: &["/x=1/f", "/x=a/f"],
        start: 0,
        types: &[("x", WHOLE)],
        reader: &[],
        told: "Compute 1",
    },
    Case {
        paths: &["/x=a/f", "/f"],
        start: 0,
        types: &[("x", WHOLE)],
        reader: &[],
        told: "Compute 1",
    },
    Case {
        paths: &["/b=1/a=2/f"],
        start: 0,
        types: &[],
        reader: &[("c", WHOLE), ("a", TEXT)],
        told: "a S 2,b I 1,;",
    },
    Case {
        paths: &["/b=1/a=2/f"],
        start: 0,
        types: &[],
        reader: &[("b", WHOLE), ("a", WHOLE)],
        told: "b I 1,a I 2,;",
    },
    Case {
        paths: &["/b=1/a=2/f"],
        start: 0,
        types: &[],
        reader: &[("a", WHOLE), ("b", WHOLE)],
        told: "a I 2,b I 1,;",
    },
    Case {
        paths: &["/x=abc/f"],
        start: 0,
        types: &[],
        reader: &[("x", WHOLE)],
        told: "Compute 0",
    },
    Case {
        paths: &["/b=1/a=2/f"],
        start: 0,
        types: &[("a", WHOLE), ("b", TEXT)],
        reader: &[],
        told: "b S 1,a I 2,;",
    },
];

/// The letter of a type.
fn letter_of(dtype: DataType) -> &'static str {
    match dtype {
        DataType::Int64 => "I",
        DataType::String => "S",
        DataType::Boolean => "B",
        DataType::List(_) => "L",
    }
}

/// Adds a number to a text.
fn tell_number(alloc: Global, told: &mut String, number: i64) -> Result<(), AllocError> {
    let number = format!(in alloc; "{number}")?;
    told.push_str(number.as_str())
}

/// Adds a value to a text.
fn tell_value(alloc: Global, told: &mut String, value: &AnyValue) -> Result<(), AllocError> {
    match value {
        AnyValue::Null => told.push_str("null"),
        AnyValue::Int64(number) => tell_number(alloc, told, *number),
        AnyValue::String(text) => told.push_str(text.as_str()),
        AnyValue::Boolean(truth) => told.push_str(if *truth { "true" } else { "false" }),
        AnyValue::List(_) => told.push_str("list"),
    }
}

/// Adds a column to a text.
fn tell(alloc: Global, told: &mut String, stat: &ColumnStats) -> Result<(), AllocError> {
    told.push_str(stat.field.name.as_str())?;
    told.push_str(" ")?;
    told.push_str(letter_of(stat.field.dtype))?;
    told.push_str(" ")?;
    tell_value(alloc, told, &stat.value)?;
    told.push_str(",")
}

/// Adds a part to a text.
fn tell_part(alloc: Global, told: &mut String, part: &HivePartitions) -> Result<(), AllocError> {
    for stat in part.get_statistics().column_stats() {
        tell(alloc, told, stat)?;
    }
    told.push_str(";")
}

/// Parts as text.
fn parts(alloc: Global, parts: &[HivePartitions]) -> Result<String, AllocError> {
    let mut told = String::new(alloc);
    for part in parts {
        tell_part(alloc, &mut told, part)?;
    }
    Ok(told)
}

/// The kind and the place of a refusal, as text.
fn refusal(alloc: Global, kind: &str, at: At) -> Result<String, AllocError> {
    format!(in alloc; "{kind} {}", at.place)
}

/// A refusal as text.
fn refused(alloc: Global, error: PolarsError) -> Result<String, AllocError> {
    match error {
        PolarsError::ComputeError(at) => refusal(alloc, "Compute", at),
        PolarsError::SchemaFieldNotFound(at) => refusal(alloc, "NotFound", at),
        PolarsError::Duplicate(at) => refusal(alloc, "Duplicate", at),
        _ => String::from_str(alloc, "another fault"),
    }
}

/// Parts of paths, or why there are none.
type Read = PolarsResult<Option<Items<HivePartitions>>>;

/// An answer as text.
fn answer(alloc: Global, read: &Read) -> Result<String, AllocError> {
    match read {
        Ok(None) => String::from_str(alloc, "none"),
        Ok(Some(told)) => parts(alloc, told.as_slice()),
        Err(error) => refused(alloc, *error),
    }
}

/// What paths tell, with these types.
fn read(alloc: Global, case: &Case, paths: &[PlSmallStr], types: Option<&Schema>) -> Read {
    let reader = schema(alloc, case.reader)?;
    hive_partitions_from_paths(alloc, paths, case.start, types, &reader, true)
}

/// The same, with the types of the case.
fn read_typed(alloc: Global, case: &Case, paths: &[PlSmallStr]) -> Read {
    let types = schema(alloc, case.types)?;
    read(alloc, case, paths, Some(&types))
}

/// What the paths of a case tell.
fn read_case(alloc: Global, case: &Case) -> Read {
    let paths = names(alloc, case.paths)?;
    if case.types.is_empty() {
        read(alloc, case, paths.as_slice(), None)
    } else {
        read_typed(alloc, case, paths.as_slice())
    }
}

/// The same as text.
fn told(alloc: Global, case: &Case) -> Result<String, AllocError> {
    let read = read_case(alloc, case);
    answer(alloc, &read)
}

/// Whether the paths of a case tell what they should.
fn is_told(alloc: Global, case: &Case) -> Result<bool, AllocError> {
    Ok(told(alloc, case)?.as_str() == case.told)
}

/// Whether paths alone tell what they should.
fn is_told_alone(alloc: Global, paths: Texts, told: &'static str) -> Result<bool, AllocError> {
    let case = Case {
        paths,
        start: 0,
        types: &[],
        reader: &[],
        told,
    };
    is_told(alloc, &case)
}

/// The first paths alone, by their number, that tell something else.
fn other_alone(alloc: Global) -> Result<Option<usize>, AllocError> {
    for number in 0..PLAIN.len() {
        if !is_told_alone(alloc, PLAIN[number].0, PLAIN[number].1)? {
            return Ok(Some(number));
        }
    }
    Ok(None)
}

/// The first case, by its number, whose paths tell something else.
fn other_case(alloc: Global) -> Result<Option<usize>, AllocError> {
    for (number, case) in CASES.iter().enumerate() {
        if !is_told(alloc, case)? {
            return Ok(Some(number));
        }
    }
    Ok(None)
}

#[test]
fn paths_tell_columns(rt: HostRuntime) {
    assert!(rt; other_alone(rt.alloc()) == Ok(None));
    assert!(rt; other_case(rt.alloc()) == Ok(None));
}
