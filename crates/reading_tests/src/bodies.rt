//! Search bodies, and their refusals.
ghost use Rattle.std.specs.Prelude.{IfOk};
ghost use Rattle.agg_model.specs.MappingOrder.{IsOrdered};

use agg_mapping::index_line_of;
use agg_model::{Agg, Bounds, Key, Kind, Mapping, Order, OrderBy, Scalar, Search};
use agg_reading::RequestFault;
use agg_request::search_of;
use date_spec::Period;
use std::alloc::{AllocError, Global};
use std::process::Abort;
use std::test::Fail;

const INDEX: &[u8] =
    b"{\"index\":\"i\",\"mappings\":{\"properties\":{\"b\":{\"type\":\"boolean\"},\"n\":{\"type\":\"long\"},\
\"t\":{\"type\":\"keyword\"},\"v\":{\"type\":\"nested\",\"properties\":{\"s\":{\"type\":\"keyword\"},\
\"when\":{\"type\":\"date\"}}},\"when\":{\"type\":\"date\"}}}}";

/// The mapping that the bodies are read by.
pub(crate) fn mapping(alloc: Global) -> Result<Mapping, Fail>
    ensures { IfOk result (λ mapping. IsOrdered mapping) }
{
    match index_line_of(alloc, INDEX) {
        Ok(index) => Ok(index.mapping),
        Err(_) => Err(Fail::new("no index line")),
    }
}

/// What a body gives.
pub(crate) fn read(alloc: Global, body: &[u8], mapping: &Mapping) -> Result<Search, RequestFault>
    requires { IsOrdered mapping.now }
{
    search_of(alloc, body, mapping)
}

fn is_refused(found: Result<Search, RequestFault>, wanted: u16, pointer: &str) -> bool {
    match found {
        Err(RequestFault::Bad { code, path }) => code == wanted && path.as_str() == pointer,
        _ => false,
    }
}

/// Asserts that each body is refused with its number and its pointer.
pub(crate) fn expect_refused(
    rt: &impl Abort,
    alloc: Global,
    mapping: &Mapping,
    rows: &[(u16, &str, &str)],
)
    requires { IsOrdered mapping.now }
{
    for &(code, pointer, body) in rows {
        let found = read(alloc, body.as_bytes(), mapping);
        assert!(rt; is_refused(found, code, pointer), "{body}");
    }
}

#[test]
fn each_refusal_has_its_number_and_its_pointer(rt: HostRuntime) -> Result<(), Fail> {
    let mapping = mapping(rt.alloc())?;
    let rows = &[
        (100, "", "[]"),
        (101, "/aggz", "{\"aggz\":{}}"),
        (102, "/aggs/a/terms", "{\"aggs\":{\"a\":{\"terms\":{}}}}"),
        (
            103,
            "/aggs/a/terms/field",
            "{\"aggs\":{\"a\":{\"terms\":{\"field\":5}}}}",
        ),
        (
            104,
            "/aggs/a/terms/size",
            "{\"aggs\":{\"a\":{\"terms\":{\"field\":\"t\",\"size\":0}}}}",
        ),
        (105, "/query/match", "{\"query\":{\"match\":{}}}"),
        (
            106,
            "/aggs/a/cardinality",
            "{\"aggs\":{\"a\":{\"cardinality\":{}}}}",
        ),
        (107, "", "{\"aggs\":{},\"aggregations\":{}}"),
        (
            108,
            "/aggs/a/sum/field",
            "{\"aggs\":{\"a\":{\"sum\":{\"field\":\"t\"}}}}",
        ),
        (
            109,
            "/aggs/a/reverse_nested",
            "{\"aggs\":{\"a\":{\"reverse_nested\":{}}}}",
        ),
        (
            110,
            "/aggs/a/aggs",
            "{\"aggs\":{\"a\":{\"sum\":{\"field\":\"n\"},\"aggs\":{\"b\":{\"sum\":{\"field\":\"n\"}}}}}}",
        ),
        (112, "/aggs/a>b", "{\"aggs\":{\"a>b\":{\"global\":{}}}}"),
        (
            113,
            "/aggs/a/terms/order/x~1y",
            "{\"aggs\":{\"a\":{\"terms\":{\"field\":\"t\",\"order\":{\"x/y\":\"asc\"}}}}}",
        ),
        (
            114,
            "/aggs/a/sum_bucket/buckets_path",
            "{\"aggs\":{\"a\":{\"sum_bucket\":{\"buckets_path\":\"x>_count\"}}}}",
        ),
        (115, "/aggs/a", "{\"aggs\":{\"a\":{\"bucket_sort\":{}}}}"),
    ];
    expect_refused(&rt, rt.alloc(), &mapping, rows);
    Ok(())
}

/// A text so many times.
fn repeated(alloc: Global, text: &str, times: u32) -> Result<String, AllocError> {
    let mut out = String::new(alloc);
    for _ in 0..times {
        out.push_str(text)?;
    }
    Ok(out)
}

/// A body of filters, each below the one before.
fn nested_filters(alloc: Global, levels: u32) -> Result<String, AllocError> {
    let front = repeated(
        alloc,
        "\"aggs\":{\"f\":{\"filter\":{\"match_all\":{}},",
        levels,
    )?;
    let back = repeated(alloc, "}}", levels)?;
    format!(in alloc; "{{{front}\"aggs\":{{}}{back}}}")
}

#[test]
fn aggregations_nest_sixteen_deep(rt: HostRuntime) -> Result<(), Fail> {
    let mapping = mapping(rt.alloc())?;
    let deep = nested_filters(rt.alloc(), 16)?;
    assert!(rt; read(rt.alloc(), deep.as_bytes(), &mapping).is_ok());
    let deeper = nested_filters(rt.alloc(), 17)?;
    let pointer = repeated(rt.alloc(), "/aggs/f", 17)?;
    let found = read(rt.alloc(), deeper.as_bytes(), &mapping);
    assert!(rt; is_refused(found, 111, pointer.as_str()));
    Ok(())
}

fn is_no_json(found: Result<Search, RequestFault>) -> bool {
    matches!(found, Err(RequestFault::NotJson))
}

#[test]
fn bytes_that_are_no_json_have_no_pointer(rt: HostRuntime) -> Result<(), Fail> {
    let mapping = mapping(rt.alloc())?;
    for body in [
        b"".as_slice(),
        b"{".as_slice(),
        b"{\"size\":01}".as_slice(),
        b"\"\xff\"".as_slice(),
    ] {
        assert!(rt; is_no_json(read(rt.alloc(), body, &mapping)));
    }
    Ok(())
}

const EVERY_KIND: &[u8] = b"{\"size\":0,\"query\":{\"term\":{\"t\":\"x\"}},\"aggs\":{\
\"a\":{\"terms\":{\"field\":\"t\",\"size\":20,\"order\":[{\"m.value\":\"desc\"},{\"_key\":\"asc\"}],\"include\":[\"x\"],\"missing\":7},\
\"aggs\":{\"m\":{\"max\":{\"field\":\"n\"}}}},\
\"b\":{\"histogram\":{\"field\":\"n\",\"interval\":5,\"offset\":2,\"hard_bounds\":{\"min\":-3}}},\
\"c\":{\"filters\":{\"filters\":{\"y\":{\"match_all\":{}}},\"other_bucket\":true}},\
\"d\":{\"filter\":{\"exists\":{\"field\":\"b\"}}},\
\"e\":{\"missing\":{\"field\":\"t\"}},\
\"f\":{\"global\":{}},\
\"g\":{\"nested\":{\"path\":\"v\"},\"aggregations\":{\"r\":{\"reverse_nested\":{}}}},\
\"h\":{\"composite\":{\"sources\":[{\"x\":{\"terms\":{\"field\":\"t\",\"missing_bucket\":true}}},\
{\"y\":{\"histogram\":{\"field\":\"n\",\"interval\":10,\"order\":\"desc\"}}}],\"after\":{\"y\":20,\"x\":null}}},\
\"i\":{\"sum\":{\"field\":\"n\"}},\
\"j\":{\"min\":{\"field\":\"n\"}},\
\"k\":{\"avg\":{\"field\":\"n\",\"missing\":1}},\
\"l\":{\"value_count\":{\"field\":\"b\"}},\
\"m\":{\"date_histogram\":{\"field\":\"when\",\"fixed_interval\":\"12h\",\"time_zone\":\"-05:30\",\"min_doc_count\":1,\
\"extended_bounds\":{\"max\":1709251200000},\"hard_bounds\":{\"min\":\"1969-12-31T23:59:59.999Z\"},\"keyed\":true,\"missing\":\"1970\"}}}}";

fn is_terms(kind: &Kind) -> bool {
    matches!(
        kind,
        Kind::Terms {
            field: 2,
            size: 20,
            shard_size: 40,
            min_doc_count: 1,
            ..
        }
    )
}

fn is_ordered_by_its_child(kind: &Kind) -> bool {
    let by_child = Order {
        by: OrderBy::Child(0),
        descending: true,
    };
    match kind {
        Kind::Terms { order, .. } => order.len() == 2 && order.get(0) == Some(&by_child),
        _ => false,
    }
}

fn is_histogram(kind: &Kind) -> bool {
    matches!(
        kind,
        Kind::Histogram {
            field: 1,
            interval: 5,
            offset: 2,
            min_doc_count: 0,
            ..
        }
    )
}

fn is_date_histogram(kind: &Kind) -> bool {
    matches!(
        kind,
        Kind::DateHistogram {
            field: 5,
            period: Period::Fixed(43_200_000),
            zone: -19_800_000,
            min_doc_count: 1,
            extended: Bounds {
                min: None,
                max: Some(1_709_251_200_000),
            },
            hard: Bounds {
                min: Some(-1),
                max: None,
            },
            keyed: true,
            missing: Some(Scalar::Whole(0)),
            ..
        }
    )
}

fn has_other_bucket(kind: &Kind) -> bool {
    match kind {
        Kind::Filters {
            other: Some(key),
            ..
        } => key.as_str() == "_other_",
        _ => false,
    }
}

fn is_page_after(kind: &Kind) -> bool {
    match kind {
        Kind::Composite {
            sources,
            size: 10,
            after: Some(Key::Many(parts)),
        } => sources.len() == 2 && parts.len() == 2 && parts.get(0) == Some(&Key::Null),
        _ => false,
    }
}

fn is_wanted(place: usize, kind: &Kind) -> bool {
    match place {
        0 => is_terms(kind) && is_ordered_by_its_child(kind),
        1 => is_histogram(kind),
        2 => has_other_bucket(kind),
        3 => matches!(kind, Kind::Filter { .. }),
        4 => matches!(kind, Kind::Missing { field: 2 }),
        5 => matches!(kind, Kind::Global),
        6 => matches!(kind, Kind::Nested { context: 1 }),
        7 => is_page_after(kind),
        8 => matches!(kind, Kind::Sum { field: 1, .. }),
        9 => matches!(kind, Kind::Min { field: 1, .. }),
        10 => matches!(kind, Kind::Avg { field: 1, .. }),
        11 => matches!(kind, Kind::ValueCount { field: 0, .. }),
        12 => is_date_histogram(kind),
        _ => false,
    }
}

/// Asserts that the aggregations are of the kinds of `EVERY_KIND`.
fn expect_every_kind(rt: &impl Abort, aggs: &[Agg]) {
    for (place, agg) in aggs.iter().enumerate() {
        assert!(rt; is_wanted(place, &agg.kind), "{place}");
    }
}

#[test]
fn every_kind_is_read(rt: HostRuntime) -> Result<(), Fail> {
    let mapping = mapping(rt.alloc())?;
    let Ok(search) = read(rt.alloc(), EVERY_KIND, &mapping) else {
        return Err(Fail::new("no search"));
    };
    assert!(rt; search.body_bytes == EVERY_KIND.len() as u64 && search.aggs.len() == 13);
    expect_every_kind(&rt, search.aggs.as_slice());
    Ok(())
}
