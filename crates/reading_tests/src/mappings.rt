//! Index lines and mappings, and the paths of a mapping.
ghost use Rattle.std.specs.Prelude.{IfOk};
ghost use Rattle.agg_model.specs.MappingOrder.{IsOrdered};

use agg_mapping::{MapFault, field, index_line_of, mapping_of, nested};
use agg_model::{Field, FieldKind, Mapping, Text};
use agg_reading::IndexLine;
use json_walk::reading;
use serde_json::Value;
use std::alloc::Global;
use std::process::Abort;
use std::test::Fail;

fn refusal_is(alloc: Global, line: &[u8], pointer: &str) -> bool {
    match index_line_of(alloc, line) {
        Err(MapFault::Refused { path }) => path.as_str() == pointer,
        _ => false,
    }
}

const ALL_PARTS: &[u8] =
    b"{\"index\":\"i\",\"settings\":{\"number_of_shards\":\"3\"},\"mappings\":{\"dynamic\":\"strict\",\"properties\":{\
\"b\":{\"type\":\"long\"},\"a-b\":{\"type\":\"boolean\"},\
\"a\":{\"type\":\"nested\",\"properties\":{\"x\":{\"type\":\"keyword\",\"ignore_above\":5},\"o\":{\"properties\":{}}}}}}}";

fn has_field(mapping: &Mapping, path: &str, place: Option<u32>) -> bool
    requires { IsOrdered mapping.now }
{
    field(mapping, path.as_bytes()) == place
}

fn has_nested(mapping: &Mapping, path: &str, place: Option<u32>) -> bool
    requires { IsOrdered mapping.now }
{
    nested(mapping, path.as_bytes()) == place
}

/// Asserts which paths are fields and which are nested paths, at which places.
fn expect_places(rt: &impl Abort, mapping: &Mapping)
    requires { IsOrdered mapping.now }
{
    assert!(rt; has_field(mapping, "a-b", Some(0)));
    assert!(rt; has_field(mapping, "a.x", Some(1)));
    assert!(rt; has_field(mapping, "b", Some(2)));
    assert!(rt; has_field(mapping, "a", None));
    assert!(rt; has_nested(mapping, "a", Some(0)));
    assert!(rt; has_nested(mapping, "a.x", None));
}

/// Whether a field is a keyword of the first nested path that ignores more than five characters.
fn is_short_keyword(field: Option<&Field>) -> bool {
    match field {
        Some(field) => {
            field.kind == FieldKind::Keyword && field.ignore_above == Some(5) && field.context == 1
        }
        None => false,
    }
}

fn is_path(path: Option<&Text>, wanted: &str) -> bool {
    match path {
        Some(path) => path.as_str() == wanted,
        None => false,
    }
}

/// What is read of an index line.
fn line_of(alloc: Global, bytes: &[u8]) -> Result<IndexLine, Fail>
    ensures { IfOk result (λ line. IsOrdered line.mapping) }
{
    match index_line_of(alloc, bytes) {
        Ok(line) => Ok(line),
        Err(_) => Err(Fail::new("no index line")),
    }
}

#[test]
fn fields_and_nested_paths_stand_in_byte_order(rt: HostRuntime) -> Result<(), Fail> {
    let read = line_of(rt.alloc(), ALL_PARTS)?;
    let mapping = &read.mapping;
    assert!(rt; read.name.as_str() == "i" && read.shards == 3 && mapping.strict);
    expect_places(&rt, mapping);
    assert!(rt; is_short_keyword(mapping.fields.get(1)));
    assert!(rt; is_path(mapping.objects.get(0), "a.o"));
    Ok(())
}

fn is_empty_mapping(alloc: Global, value: &Value) -> bool {
    match mapping_of(alloc, value) {
        Ok(mapping) => mapping.fields.is_empty() && mapping.nested.is_empty() && !mapping.strict,
        Err(_) => false,
    }
}

#[test]
fn an_empty_object_is_a_mapping_without_fields(rt: HostRuntime) -> Result<(), Fail> {
    let Some(value) = reading(rt.alloc(), b"{}")? else {
        return Ok(());
    };
    assert!(rt; is_empty_mapping(rt.alloc(), &value));
    assert!(rt; !is_empty_mapping(rt.alloc(), &Value::Null));
    Ok(())
}

/// Asserts that each line is refused with its pointer.
fn expect_refused(rt: &impl Abort, alloc: Global, rows: &[(&str, &str)]) {
    for &(line, pointer) in rows {
        assert!(rt; refusal_is(alloc, line.as_bytes(), pointer), "{pointer}");
    }
}

#[test]
fn the_first_refusal_of_a_line_has_its_pointer(rt: HostRuntime) {
    let rows = &[
        ("[", ""),
        ("[]", ""),
        ("{\"settings\":{\"number_of_shards\":4}}", ""),
        ("{\"index\":\"i\",\"x\":1,\"settings\":2}", "/x"),
        ("{\"index\":\"\"}", "/index"),
        (
            "{\"index\":\"i\",\"settings\":{\"number_of_shards\":1025}}",
            "/settings/number_of_shards",
        ),
        (
            "{\"index\":\"i\",\"settings\":{\"index\":{\"number_of_shards\":2},\"number_of_shards\":3}}",
            "/settings/number_of_shards",
        ),
        (
            "{\"index\":\"i\",\"mappings\":{\"dynamic\":true}}",
            "/mappings/dynamic",
        ),
        (
            "{\"index\":\"i\",\"mappings\":{\"properties\":{\"a.b\":{\"type\":\"long\"}}}}",
            "/mappings/properties/a.b",
        ),
        (
            "{\"index\":\"i\",\"mappings\":{\"properties\":{\"a\":{\"x\":1}}}}",
            "/mappings/properties/a",
        ),
        (
            "{\"index\":\"i\",\"mappings\":{\"properties\":{\"a\":{\"ignore_above\":1,\"type\":\"long\"}}}}",
            "/mappings/properties/a/ignore_above",
        ),
        (
            "{\"index\":\"i\",\"mappings\":{\"properties\":{\"a\":{\"format\":\"epoch_millis\",\"type\":\"date\"}}}}",
            "/mappings/properties/a/format",
        ),
    ];
    expect_refused(&rt, rt.alloc(), rows);
}
