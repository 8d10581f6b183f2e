//! Bodies with pipelines, read or refused.
ghost use Rattle.agg_model.specs.MappingOrder.{IsOrdered};

use crate::bodies::{expect_refused, mapping, read};
use agg_model::{Mapping, Pipe, PipeKind, PipeOrder, PipePath};
use agg_reading::RequestFault;
use std::alloc::Global;
use std::test::Fail;

#[test]
fn pipelines_at_the_top_are_refused(rt: HostRuntime) -> Result<(), Fail> {
    let mapping = mapping(rt.alloc())?;
    let rows = &[
        (
            115,
            "/aggs/p",
            r#"{"aggs":{"p":{"cumulative_sum":{"buckets_path":"_count"}}}}"#,
        ),
        (
            115,
            "/aggregations/p",
            r#"{"aggregations":{"p":{"bucket_sort":{}}}}"#,
        ),
        (
            114,
            "/aggs/p/cumulative_sum/buckets_path",
            r#"{"aggs":{"p":{"cumulative_sum":{"buckets_path":"x"}}}}"#,
        ),
        // The other members of the body are read before.
        (
            105,
            "/query/match",
            r#"{"aggs":{"p":{"bucket_sort":{}}},"query":{"match":{}}}"#,
        ),
        (
            103,
            "/allow_partial_search_results",
            r#"{"aggs":{"p":{"bucket_sort":{}}},"allow_partial_search_results":1}"#,
        ),
        (
            115,
            "/aggs/c/aggs/p",
            r#"{"aggs":{"c":{"composite":{"sources":[{"x":{"terms":{"field":"t"}}}]},"aggs":{"p":{"bucket_sort":{}}}}},"query":{"match":{}}}"#,
        ),
        (
            115,
            "/aggs/g/aggs/p",
            r#"{"aggs":{"g":{"global":{},"aggs":{"p":{"bucket_sort":{}}}}}}"#,
        ),
    ];
    expect_refused(&rt, rt.alloc(), &mapping, rows);
    Ok(())
}

/// Paths of a `derivative` beside an average `a`, metrics `s`, `s.value` and `u`, and terms `t`, and what they name.
static VALUES: [(&str, Result<PipePath, u16>); 17] = [
    ("_count", Ok(PipePath::Count)),
    ("s", Ok(PipePath::Child(1))),
    ("s.value", Ok(PipePath::Child(2))),
    ("s.value.value", Ok(PipePath::Child(2))),
    ("u", Ok(PipePath::Child(4))),
    ("u.value", Ok(PipePath::Child(4))),
    ("a", Err(114)),
    ("a.value", Err(114)),
    ("t", Err(114)),
    ("t>_count", Err(114)),
    ("p", Err(114)),
    ("x", Err(114)),
    ("_key", Err(114)),
    ("_count.value", Err(114)),
    ("_Count", Err(114)),
    ("u.values", Err(114)),
    ("", Err(114)),
];

/// Whether the one pipeline is a derivative of this value below the first aggregation.
fn is_derivative(pipes: &[Pipe], wanted: PipePath) -> bool {
    match pipes {
        [pipe] => match pipe.kind {
            PipeKind::Derivative { path } => {
                path == wanted && pipe.at.as_slice() == [0].as_slice() && pipe.name.as_str() == "p"
            }
            _ => false,
        },
        _ => false,
    }
}

fn is_value(
    alloc: Global,
    mapping: &Mapping,
    path: &str,
    wanted: Result<PipePath, u16>,
) -> Result<bool, Fail>
    requires { IsOrdered mapping.now }
{
    let body = format!(in alloc;
        "{{\"aggs\":{{\"h\":{{\"date_histogram\":{{\"field\":\"when\",\"calendar_interval\":\"day\"}},\"aggs\":{{\
\"a\":{{\"avg\":{{\"field\":\"n\"}}}},\"p\":{{\"derivative\":{{\"buckets_path\":\"{path}\"}}}},\
\"s\":{{\"sum\":{{\"field\":\"n\"}}}},\"s.value\":{{\"max\":{{\"field\":\"n\"}}}},\
\"t\":{{\"terms\":{{\"field\":\"t\"}}}},\"u\":{{\"value_count\":{{\"field\":\"t\"}}}}}}}}}}}}"
    )?;
    Ok(match (read(alloc, body.as_bytes(), mapping), wanted) {
        (Ok(search), Ok(wanted)) => is_derivative(search.pipes.as_slice(), wanted),
        (Err(RequestFault::Bad { code, path }), Err(wanted)) => {
            code == wanted && path.as_str() == "/aggs/h/aggs/p/derivative/buckets_path"
        }
        _ => false,
    })
}

#[test]
fn values_are_found_by_their_paths(rt: HostRuntime) -> Result<(), Fail> {
    let mapping = mapping(rt.alloc())?;
    for (path, wanted) in &VALUES {
        assert!(rt; is_value(rt.alloc(), &mapping, path, *wanted)?, "{path}");
    }
    Ok(())
}

/// Paths of a `sum_bucket` `p` at the top, and the place of the aggregation and the value that they name.
static SIBLINGS: [(&str, Result<(u32, PipePath), u16>); 26] = [
    ("d>_count", Ok((1, PipePath::Count))),
    ("h>_count", Ok((4, PipePath::Count))),
    ("h>s", Ok((4, PipePath::Child(1)))),
    ("h>s.value", Ok((4, PipePath::Child(1)))),
    ("t>_count", Ok((6, PipePath::Count))),
    ("t>u", Ok((6, PipePath::Child(0)))),
    ("tt>_count", Ok((7, PipePath::Count))),
    ("h", Err(114)),
    ("h>", Err(114)),
    ("h>a", Err(114)),
    ("h>x", Err(114)),
    ("h>_key", Err(114)),
    ("h>>_count", Err(114)),
    ("h>h>_count", Err(114)),
    ("h.s", Err(114)),
    (">_count", Err(114)),
    ("_count", Err(114)),
    ("x>_count", Err(114)),
    ("p>_count", Err(114)),
    ("ttt>_count", Err(114)),
    ("c>_count", Err(114)),
    ("f>_count", Err(114)),
    ("g>_count", Err(114)),
    ("m>_count", Err(114)),
    ("n", Err(114)),
    ("", Err(114)),
];

/// Whether the one pipeline is a sum of such buckets at the top.
fn is_sum_bucket(pipes: &[Pipe], wanted: (u32, PipePath)) -> bool {
    match pipes {
        [pipe] => match pipe.kind {
            PipeKind::SumBucket { sibling, path } => {
                (sibling, path) == wanted && pipe.at.is_empty() && pipe.name.as_str() == "p"
            }
            _ => false,
        },
        _ => false,
    }
}

fn is_sibling(
    alloc: Global,
    mapping: &Mapping,
    path: &str,
    wanted: Result<(u32, PipePath), u16>,
) -> Result<bool, Fail>
    requires { IsOrdered mapping.now }
{
    let body = format!(in alloc;
        "{{\"aggs\":{{\"c\":{{\"composite\":{{\"sources\":[{{\"x\":{{\"terms\":{{\"field\":\"t\"}}}}}}]}}}},\
\"d\":{{\"date_histogram\":{{\"field\":\"when\",\"calendar_interval\":\"day\"}}}},\
\"f\":{{\"filters\":{{\"filters\":{{\"y\":{{\"match_all\":{{}}}}}}}}}},\"g\":{{\"global\":{{}}}},\
\"h\":{{\"histogram\":{{\"field\":\"n\",\"interval\":5}},\"aggs\":{{\"a\":{{\"avg\":{{\"field\":\"n\"}}}},\"s\":{{\"sum\":{{\"field\":\"n\"}}}}}}}},\
\"m\":{{\"missing\":{{\"field\":\"n\"}}}},\"p\":{{\"sum_bucket\":{{\"buckets_path\":\"{path}\"}}}},\
\"t\":{{\"terms\":{{\"field\":\"t\"}},\"aggs\":{{\"u\":{{\"value_count\":{{\"field\":\"n\"}}}}}}}},\"tt\":{{\"terms\":{{\"field\":\"t\"}}}}}}}}"
    )?;
    Ok(match (read(alloc, body.as_bytes(), mapping), wanted) {
        (Ok(search), Ok(wanted)) => is_sum_bucket(search.pipes.as_slice(), wanted),
        (Err(RequestFault::Bad { code, path }), Err(wanted)) => {
            code == wanted && path.as_str() == "/aggs/p/sum_bucket/buckets_path"
        }
        _ => false,
    })
}

#[test]
fn siblings_are_found_by_their_names(rt: HostRuntime) -> Result<(), Fail> {
    let mapping = mapping(rt.alloc())?;
    for (path, wanted) in &SIBLINGS {
        assert!(rt; is_sibling(rt.alloc(), &mapping, path, *wanted)?, "{path}");
    }
    Ok(())
}

const NESTED: &[u8] = b"{\"aggs\":{\
\"a\":{\"terms\":{\"field\":\"t\"},\"aggs\":{\
\"b\":{\"bucket_sort\":{\"sort\":[{\"s.value\":{\"order\":\"desc\"}},{\"_count\":{\"order\":\"asc\"}}],\"from\":1,\"size\":0}},\
\"h\":{\"histogram\":{\"field\":\"n\",\"interval\":5},\"aggs\":{\
\"c\":{\"cumulative_sum\":{\"buckets_path\":\"_count\"}},\"d\":{\"bucket_sort\":{}}}},\
\"i\":{\"min_bucket\":{\"buckets_path\":\"h>_count\"}},\
\"s\":{\"sum\":{\"field\":\"n\"}}}},\
\"b\":{\"max_bucket\":{\"buckets_path\":\"a>s\"}},\
\"c\":{\"filter\":{\"match_all\":{}},\"aggs\":{\
\"t\":{\"terms\":{\"field\":\"t\"}},\"u\":{\"sum_bucket\":{\"buckets_path\":\"t>_count\"}}}}}}";

/// Whether a pipeline stands there under this name.
fn stands(pipe: &Pipe, at: &[u32], name: &str) -> bool {
    pipe.at.as_slice() == at && pipe.name.as_str() == name
}

/// Whether a pipeline is a cut from the second bucket on, by a child descending and then by the count.
fn is_sort_by_a_child(kind: &PipeKind) -> bool {
    let by_child = PipeOrder {
        path: PipePath::Child(1),
        descending: true,
    };
    let by_count = PipeOrder {
        path: PipePath::Count,
        descending: false,
    };
    match kind {
        PipeKind::BucketSort {
            sort,
            from: 1,
            size: Some(0),
        } => { sort.len() == 2 && sort.get(0) == Some(&by_child) && sort.get(1) == Some(&by_count) }
        _ => false,
    }
}

/// Whether a pipeline keeps all buckets in their order.
fn is_empty_sort(kind: &PipeKind) -> bool {
    match kind {
        PipeKind::BucketSort {
            sort,
            from: 0,
            size: None,
        } => sort.is_empty(),
        _ => false,
    }
}

#[test]
fn pipelines_stand_in_the_order_of_the_walk(rt: HostRuntime) -> Result<(), Fail> {
    let mapping = mapping(rt.alloc())?;
    let Ok(search) = read(rt.alloc(), NESTED, &mapping) else {
        return Err(Fail::new("not read"));
    };
    let [sort, sums, cut, least, greatest, total] = search.pipes.as_slice() else {
        return Err(Fail::new("other pipelines"));
    };
    assert!(rt; stands(sort, &[0], "b") && is_sort_by_a_child(&sort.kind));
    assert!(rt; stands(sums, &[0, 0], "c"));
    let counts = PipeKind::CumulativeSum {
        path: PipePath::Count,
    };
    assert!(rt; sums.kind == counts);
    assert!(rt; stands(cut, &[0, 0], "d") && is_empty_sort(&cut.kind));
    assert!(rt; stands(least, &[0], "i"));
    let least_count = PipeKind::MinBucket {
        sibling: 0,
        path: PipePath::Count,
    };
    assert!(rt; least.kind == least_count);
    assert!(rt; stands(greatest, &[], "b"));
    let greatest_sum = PipeKind::MaxBucket {
        sibling: 0,
        path: PipePath::Child(1),
    };
    assert!(rt; greatest.kind == greatest_sum);
    assert!(rt; stands(total, &[1], "u"));
    let total_count = PipeKind::SumBucket {
        sibling: 0,
        path: PipePath::Count,
    };
    assert!(rt; total.kind == total_count);
    Ok(())
}
