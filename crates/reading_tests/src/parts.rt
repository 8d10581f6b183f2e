//! The parts of JSON values, found or refused.
use agg_model::{FieldKind, Probe, Text};
use agg_reading::RequestFault;
use json_walk::{
    At, check_names, choice, fits_kind, is_longer, json, list, object, probe_of, reading, required,
    signed, signed_in, stored, text, truth, truth_in, whole_in, word,
};
use serde_json::{Map, Value};
use std::alloc::Global;
use std::process::Abort;
use std::test::Fail;

fn value_of(alloc: Global, text: &[u8]) -> Result<Value, Fail> {
    match reading(alloc, text)? {
        Some(value) => Ok(value),
        None => Ok(Value::Null),
    }
}

fn is_bad<T: Drop>(res: Result<T, RequestFault>, wanted: u16, pointer: &str) -> bool {
    match res {
        Err(RequestFault::Bad { code, path }) => code == wanted && path.as_str() == pointer,
        _ => false,
    }
}

#[test]
fn a_refusal_has_the_pointer_of_its_place(rt: HostRuntime) -> Result<(), Fail> {
    let aggs = At::Start("/aggs");
    let name = At::Member(&aggs, "a/b~c");
    let item = At::Item(&name, 12);
    assert!(rt; is_bad::<u8>(item.refuse(rt.alloc(), 104), 104, "/aggs/a~1b~0c/12"));
    let empty = At::Start("");
    assert!(rt; is_bad::<u8>(At::Member(&empty, "").refuse(rt.alloc(), 31), 31, "/"));
    Ok(())
}

#[test]
fn bytes_are_read_or_are_not_json(rt: HostRuntime) -> Result<(), Fail> {
    assert!(rt; matches!(json(rt.alloc(), b" [1] "), Ok(Value::Array(_))));
    assert!(rt; matches!(json(rt.alloc(), b"[1"), Err(RequestFault::NotJson)));
    assert!(rt; matches!(json(rt.alloc(), b""), Err(RequestFault::NotJson)));
    assert!(rt; matches!(json(rt.alloc(), b"\"\xff\""), Err(RequestFault::NotJson)));
    assert!(rt; matches!(reading(rt.alloc(), b"1e400"), Ok(None)));
    Ok(())
}

/// Asserts that an object is no list, no text and, as none is there, no object.
fn expect_wrong_types(rt: &impl Abort, a: Global, value: &Value) {
    let at = At::Start("");
    assert!(rt; is_bad(list(a, 31, &at, value), 31, ""));
    assert!(rt; is_bad(text(a, 32, &at, value), 32, ""));
    assert!(rt; is_bad(object(a, 100, &at, &Value::Null), 100, ""));
}

/// Asserts that the members `a`, `b` and `z` are found, and no others.
fn expect_names(rt: &impl Abort, a: Global, members: &Map<String, Value>) {
    let at = At::Start("");
    assert!(rt; matches!(required(a, &at, members, "b"), Ok(Value::Null)));
    assert!(rt; is_bad(required(a, &at, members, "c"), 102, ""));
    assert!(rt; check_names(a, 101, &at, members, &["a", "b", "z"]).is_ok());
    assert!(rt; is_bad(check_names(a, 101, &at, members, &["z"]), 101, "/a"));
}

/// The members of an object.
fn members_of(alloc: Global, value: &Value) -> Result<&Map<String, Value>, Fail> {
    match object(alloc, 103, &At::Start(""), value) {
        Ok(members) => Ok(members),
        Err(_) => Err(Fail::new("no object")),
    }
}

#[test]
fn parts_are_found_or_refused(rt: HostRuntime) -> Result<(), Fail> {
    let a = rt.alloc();
    let value = value_of(a, r#"{"b":null,"a":[],"z":"w"}"#.as_bytes())?;
    expect_wrong_types(&rt, a, &value);
    expect_names(&rt, a, members_of(a, &value)?);
    Ok(())
}

/// Asserts that 5 is a number and no boolean.
fn expect_five(rt: &impl Abort, a: Global, five: &Value) {
    let at = At::Start("");
    assert!(rt; signed(a, &at, five) == Ok(5));
    assert!(rt; is_bad(truth(a, &at, five), 103, ""));
}

/// Asserts that `asc` is read where it is among the words.
fn expect_ascending(rt: &impl Abort, a: Global, name: &Value) {
    let at = At::Start("");
    assert!(rt; choice(a, &["asc", "desc"], &at, name) == Ok("asc"));
    assert!(rt; is_bad(choice(a, &["desc"], &at, name), 104, ""));
}

/// Asserts what is read of members that are numbers, booleans or absent.
fn expect_read(rt: &impl Abort, a: Global, members: &Map<String, Value>) {
    let at = At::Start("");
    assert!(rt; signed_in(a, "n", &at, members) == Ok(Some(-7)));
    assert!(rt; truth_in(a, "t", &at, members) == Ok(Some(true)));
    assert!(rt; whole_in(a, 1, 5, "five", &at, members) == Ok(Some(5)));
    assert!(rt; whole_in(a, 0, 9, "y", &at, members) == Ok(None));
}

/// Asserts that each member is no number from the least to 9.
fn expect_refused(
    rt: &impl Abort,
    a: Global,
    members: &Map<String, Value>,
    rows: &[(u64, &str, u16, &str)],
) {
    let at = At::Start("");
    for &(least, name, code, pointer) in rows {
        assert!(rt; is_bad(whole_in(a, least, 9, name, &at, members), code, pointer));
    }
}

#[test]
fn numbers_words_and_booleans_are_read_or_refused(rt: HostRuntime) -> Result<(), Fail> {
    let a = rt.alloc();
    let five = value_of(a, b"5")?;
    expect_five(&rt, a, &five);
    let name = value_of(a, r#""asc""#.as_bytes())?;
    expect_ascending(&rt, a, &name);
    let value = value_of(
        a,
        r#"{"n":-7,"t":true,"x":null,"five":5,"zero":-0,"name":"asc"}"#.as_bytes(),
    )?;
    let members = members_of(a, &value)?;
    expect_read(&rt, a, members);
    let rows = &[
        (6, "five", 104, "/five"),
        (0, "zero", 104, "/zero"),
        (0, "name", 103, "/name"),
        (0, "x", 103, "/x"),
    ];
    expect_refused(&rt, a, members, rows);
    Ok(())
}

/// Whether a JSON text is this word of a field, or none.
fn is_word(alloc: Global, json: &str, wanted: Option<&str>) -> Result<bool, Fail> {
    let value = value_of(alloc, json.as_bytes())?;
    match word(alloc, &value)? {
        Some(found) => Ok(wanted == Some(found.as_str())),
        None => Ok(wanted == None),
    }
}

/// Asserts the word that each JSON text is.
fn expect_words(rt: &impl Abort, alloc: Global, rows: &[(&str, Option<&str>)]) -> Result<(), Fail> {
    for &(json, wanted) in rows {
        assert!(rt; is_word(alloc, json, wanted)?, "{json}");
    }
    Ok(())
}

#[test]
fn words_of_fields(rt: HostRuntime) -> Result<(), Fail> {
    let rows = &[
        ("\"\u{e9}\"", Some("\u{e9}")),
        ("-12", Some("-12")),
        ("18446744073709551615", Some("18446744073709551615")),
        ("false", Some("false")),
        ("1.0", None),
        ("null", None),
    ];
    expect_words(&rt, rt.alloc(), rows)
}

/// Whether a JSON text is this number to a field of this kind, or none.
fn is_whole(
    alloc: Global,
    kind: FieldKind,
    json: &str,
    wanted: Option<i128>,
) -> Result<bool, Fail> {
    let value = value_of(alloc, json.as_bytes())?;
    let found = probe_of(alloc, kind, &value)?;
    Ok(found == wanted.map(Probe::Whole))
}

/// Asserts the number that each JSON text is to a field of this kind.
fn expect_wholes(
    rt: &impl Abort,
    alloc: Global,
    kind: FieldKind,
    rows: &[(&str, Option<i128>)],
) -> Result<(), Fail> {
    for &(json, wanted) in rows {
        assert!(rt; is_whole(alloc, kind, json, wanted)?, "{json}");
    }
    Ok(())
}

#[test]
fn numbers_of_fields(rt: HostRuntime) -> Result<(), Fail> {
    let rows = &[
        (r#""-0""#, Some(0)),
        ("-0", None),
        (r#""+1""#, None),
        (r#""-00000000000000000000000000000000000012""#, Some(-12)),
        (r#""000000000000000000000000000000000000001""#, None),
        ("true", None),
    ];
    expect_wholes(&rt, rt.alloc(), FieldKind::Byte, rows)
}

#[test]
fn dates_of_fields(rt: HostRuntime) -> Result<(), Fail> {
    let rows = &[
        (r#""2024-03-01""#, Some(1_709_251_200_000)),
        (r#""2024-02-29T23:59:59.999Z""#, Some(1_709_251_199_999)),
        ("1709251200000", Some(1_709_251_200_000)),
        ("253402214400000", Some(253_402_214_400_000)),
        (r#""253402214400000""#, None),
        (r#""9999-12-31""#, None),
        (r#""2023-02-29""#, None),
        ("9223372036854775808", None),
        ("1.0", None),
        ("true", None),
        ("null", None),
    ];
    expect_wholes(&rt, rt.alloc(), FieldKind::Date, rows)
}

#[test]
fn values_of_fields_are_bounded(rt: HostRuntime) -> Result<(), Fail> {
    assert!(rt; fits_kind(FieldKind::Byte, -128) && !fits_kind(FieldKind::Byte, 128));
    assert!(rt; fits_kind(FieldKind::Date, -62_167_219_200_000));
    assert!(rt; !fits_kind(FieldKind::Date, -62_167_219_200_001));
    assert!(rt; is_longer("\u{e9}\u{e9}", 1) && !is_longer("\u{e9}\u{e9}", 2));
    assert!(rt; stored(FieldKind::Long, Probe::Whole(9_223_372_036_854_775_808)).is_none());
    assert!(rt; stored(FieldKind::Keyword, Probe::Word(Text::of(rt.alloc(), "w")?)).is_some());
    assert!(rt; stored(FieldKind::Date, Probe::Whole(253_402_214_399_999)).is_some());
    assert!(rt; stored(FieldKind::Date, Probe::Whole(253_402_214_400_000)).is_none());
    Ok(())
}
