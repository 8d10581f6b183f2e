//! The value that a document gives a field of each kind, and its refusal.
use crate::rows::{has_values, is_refused, row_of};
use agg_model::{Scalar, Text};
use std::alloc::{AllocError, Global};
use std::process::Abort;
use std::test::Fail;

/// An index line with one field, `a.b`, of a kind that is written so.
fn line_of(alloc: Global, kind: &str) -> Result<String, AllocError> {
    format!(in alloc;
        "{{\"index\":\"i\",\"mappings\":{{\"properties\":{{\"a\":{{\"properties\":{{\"b\":{{\"type\":{kind}}}}}}}}}}}}}"
    )
}

/// A source that gives the field this value.
fn source_of(alloc: Global, value: &str) -> Result<String, AllocError> {
    format!(in alloc; "{{\"a\":{{\"b\":{value}}}}}")
}

/// Whether the field has these values, or none.
fn gives(alloc: Global, kind: &str, value: &str, wanted: &[Scalar]) -> Result<bool, Fail> {
    let line = line_of(alloc, kind)?;
    let source = source_of(alloc, value)?;
    let row = row_of(alloc, line.as_bytes(), source.as_bytes())?;
    if wanted.is_empty() {
        return Ok(row.values.is_empty());
    }
    Ok(row.values.len() == 1 && has_values(&row, 0, 0, wanted))
}

#[test]
fn values_of_all_kinds_are_read(rt: HostRuntime) -> Result<(), Fail> {
    let a = rt.alloc();
    assert!(rt; gives(a, "\"byte\"", "-128", &[Scalar::Whole(-128)])?);
    let two = [Scalar::Word(Text::of(a, "\u{e9}\u{e9}")?)];
    assert!(rt;
        gives(
            a,
            "\"keyword\",\"ignore_above\":2",
            "\"\u{e9}\u{e9}\"",
            &two
        )?
    );
    assert!(rt; gives(a, "\"keyword\",\"ignore_above\":1", "\"\u{e9}\u{e9}\"", &[])?);
    assert!(rt; gives(a, "\"boolean\"", "\"\"", &[Scalar::Flag(false)])?);
    Ok(())
}

/// Whether the value is refused with this number, with the path of the field.
fn refuses(alloc: Global, kind: &str, value: &str, number: u8) -> Result<bool, AllocError> {
    let line = line_of(alloc, kind)?;
    let source = source_of(alloc, value)?;
    Ok(is_refused(alloc, line.as_bytes(), source.as_bytes(), number, "a.b"))
}

/// Asserts that each value is refused with its number.
fn expect_refused(rt: &impl Abort, alloc: Global, rows: &[(&str, &str, u8)]) -> Result<(), Fail> {
    for &(kind, value, number) in rows {
        assert!(rt; refuses(alloc, kind, value, number)?, "{kind} {value}");
    }
    Ok(())
}

#[test]
fn values_of_all_kinds_are_refused(rt: HostRuntime) -> Result<(), Fail> {
    let rows = &[
        ("\"byte\"", "-129", 22),
        ("\"long\"", "18446744073709551616", 21),
        ("\"long\"", "\"9223372036854775808\"", 22),
        ("\"short\"", "true", 21),
        ("\"keyword\"", "1.5", 21),
        ("\"boolean\"", "0", 21),
    ];
    expect_refused(&rt, rt.alloc(), rows)
}
