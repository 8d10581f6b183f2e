//! Queries of search bodies, and their refusals.
use agg_mapping::mapping_of;
use agg_model::{Boxed, List, Probe, Query, RangeOp, RangeTest, Text};
use agg_query::query_of;
use agg_reading::RequestFault;
use json_walk::reading;
use std::alloc::{AllocError, Global};
use std::process::Abort;
use std::test::Fail;

/// What a body gives after so many queries, over fields `b`, `n`, `o.s` and `t` and nested paths `o`, `o-o` and `o.p`.
fn query_after(alloc: Global, before: u32, body: &str) -> Result<Query, RequestFault> {
    let line =
        b"{\"properties\":{\"b\":{\"type\":\"boolean\"},\"n\":{\"type\":\"long\"},\"t\":{\"type\":\"keyword\"},\
\"o\":{\"type\":\"nested\",\"properties\":{\"s\":{\"type\":\"keyword\"},\"p\":{\"type\":\"nested\"}}},\"o-o\":{\"type\":\"nested\"}}}";
    let Some(fields) = reading(alloc, line)? else {
        return Err(RequestFault::NotJson);
    };
    let Some(value) = reading(alloc, body.as_bytes())? else {
        return Err(RequestFault::NotJson);
    };
    let Ok(mapping) = mapping_of(alloc, &fields) else {
        return Err(RequestFault::NotJson);
    };
    let at = Text::of(alloc, "")?;
    query_of(alloc, &value, &mapping, 0, &at, before.min(1_024))
}

fn is_refused(found: Result<Query, RequestFault>, wanted: u16, pointer: &str) -> bool {
    match found {
        Err(RequestFault::Bad { code, path }) => code == wanted && path.as_str() == pointer,
        _ => false,
    }
}

/// Asserts that each body is refused with its number and its pointer.
fn expect_refused(rt: &impl Abort, alloc: Global, rows: &[(&str, u16, &str)]) {
    for &(body, code, pointer) in rows {
        let found = query_after(alloc, 0, body);
        assert!(rt; is_refused(found, code, pointer), "{body}");
    }
}

fn is_read(alloc: Global, body: &str, wanted: Query) -> bool {
    query_after(alloc, 0, body) == Ok(wanted)
}

#[test]
fn a_query_is_an_object_with_one_known_name(rt: HostRuntime) {
    let rows = &[
        ("[]", 103, ""),
        ("{}", 107, ""),
        ("{\"match_all\":{},\"boost\":1}", 107, ""),
        ("{\"x\":{}}", 105, "/x"),
        ("{\"match_all\":[]}", 103, "/match_all"),
        (
            "{\"match_all\":{\"y\":1,\"boost\":{},\"a\":2}}",
            101,
            "/match_all/a",
        ),
    ];
    expect_refused(&rt, rt.alloc(), rows);
}

#[test]
fn term_and_terms_refuse_in_the_order_of_their_walk(rt: HostRuntime) {
    let rows = &[
        ("{\"term\":{}}", 107, "/term"),
        ("{\"term\":{\"n\":1,\"t\":1}}", 107, "/term"),
        ("{\"term\":{\"boost\":1}}", 107, "/term"),
        (
            "{\"term\":{\"a/b~c\":{\"value\":[]}}}",
            108,
            "/term/a~1b~0c",
        ),
        ("{\"term\":{\"n\":null}}", 104, "/term/n"),
        ("{\"term\":{\"n\":1.0}}", 104, "/term/n"),
        ("{\"term\":{\"n\":{}}}", 102, "/term/n"),
        (
            "{\"term\":{\"n\":{\"value\":\"+1\"}}}",
            104,
            "/term/n/value",
        ),
        (
            "{\"term\":{\"n\":{\"value\":true,\"v\":1}}}",
            101,
            "/term/n/v",
        ),
        ("{\"terms\":{\"n\":1}}", 103, "/terms/n"),
        (
            "{\"terms\":{\"n\":[1,\"-2\",null,\"x\"]}}",
            104,
            "/terms/n/2",
        ),
    ];
    expect_refused(&rt, rt.alloc(), rows);
}

#[test]
fn range_exists_and_ids_refuse_in_the_order_of_their_walk(rt: HostRuntime) {
    let rows = &[
        ("{\"range\":{\"b\":5}}", 108, "/range/b"),
        ("{\"range\":{\"n\":5}}", 103, "/range/n"),
        (
            "{\"range\":{\"n\":{\"gt\":null,\"lt\":true,\"zz\":1}}}",
            101,
            "/range/n/zz",
        ),
        (
            "{\"range\":{\"n\":{\"lte\":[],\"gt\":\"x\"}}}",
            104,
            "/range/n/gt",
        ),
        ("{\"exists\":{\"field\":1,\"x\":1}}", 101, "/exists/x"),
        ("{\"exists\":{}}", 102, "/exists"),
        ("{\"exists\":{\"field\":null}}", 103, "/exists/field"),
        ("{\"exists\":{\"field\":\"o\"}}", 108, "/exists/field"),
        ("{\"ids\":{\"values\":\"a\"}}", 103, "/ids/values"),
        ("{\"ids\":{\"boost\":1}}", 102, "/ids"),
        ("{\"ids\":{\"values\":[\"a\",1]}}", 103, "/ids/values/1"),
    ];
    expect_refused(&rt, rt.alloc(), rows);
}

#[test]
fn bool_refuses_in_byte_order_of_its_members(rt: HostRuntime) {
    let rows = &[
        (
            "{\"bool\":{\"must\":[{\"term\":{\"t\":1}},{\"x\":{}}]}}",
            105,
            "/bool/must/1/x",
        ),
        (
            "{\"bool\":{\"must\":{\"x\":{}},\"filter\":{\"y\":{}}}}",
            105,
            "/bool/filter/y",
        ),
        (
            "{\"bool\":{\"minimum_should_match\":1025,\"must\":{\"x\":{}}}}",
            104,
            "/bool/minimum_should_match",
        ),
        (
            "{\"bool\":{\"minimum_should_match\":\"1\"}}",
            103,
            "/bool/minimum_should_match",
        ),
        (
            "{\"bool\":{\"should\":[[]],\"must_not\":5,\"z\":1}}",
            101,
            "/bool/z",
        ),
        (
            "{\"bool\":{\"should\":[[]],\"must_not\":5}}",
            103,
            "/bool/must_not",
        ),
    ];
    expect_refused(&rt, rt.alloc(), rows);
}

#[test]
fn nested_paths_lie_strictly_beneath_the_context(rt: HostRuntime) {
    let rows = &[
        (
            "{\"nested\":{\"path\":\"o\",\"score_mode\":1}}",
            102,
            "/nested",
        ),
        (
            "{\"nested\":{\"path\":\"q\",\"query\":{}}}",
            109,
            "/nested/path",
        ),
        (
            "{\"nested\":{\"path\":1,\"query\":{}}}",
            103,
            "/nested/path",
        ),
        ("{\"nested\":{\"query\":{}}}", 102, "/nested"),
        (
            "{\"nested\":{\"path\":\"o\",\"query\":{\"nested\":{\"path\":\"o\",\"query\":{}}}}}",
            109,
            "/nested/query/nested/path",
        ),
        (
            "{\"nested\":{\"path\":\"o\",\"query\":{\"nested\":{\"path\":\"o-o\",\"query\":{}}}}}",
            109,
            "/nested/query/nested/path",
        ),
        (
            "{\"nested\":{\"path\":\"o.p\",\"query\":{\"x\":1}}}",
            105,
            "/nested/query/x",
        ),
    ];
    expect_refused(&rt, rt.alloc(), rows);
}

fn term(alloc: Global, word: &str) -> Result<Query, AllocError> {
    let value = Probe::Word(Text::of(alloc, word)?);
    Ok(Query::Term { field: 3, value })
}

#[test]
fn queries_of_one_value(rt: HostRuntime) -> Result<(), Fail> {
    let a = rt.alloc();
    assert!(rt; is_read(a, "{\"match_all\":{\"boost\":1}}", Query::All));
    assert!(rt; is_read(a, "{\"term\":{\"t\":true,\"boost\":2}}", term(a, "true")?));
    assert!(rt; is_read(a, "{\"term\":{\"t\":{\"value\":-7}}}", term(a, "-7")?));
    assert!(rt;
        is_read(
            a,
            "{\"exists\":{\"field\":\"o.s\"}}",
            Query::Exists { field: 2 }
        )
    );
    Ok(())
}

fn true_or_false(alloc: Global) -> Result<Query, AllocError> {
    let mut values = List::new(alloc);
    values.push(Probe::Flag(true))?;
    values.push(Probe::Flag(false))?;
    Ok(Query::Terms { field: 0, values })
}

fn above_1_up_to_9(alloc: Global) -> Result<Query, AllocError> {
    let mut tests = List::new(alloc);
    tests.push(RangeTest {
        op: RangeOp::Gt,
        value: Probe::Whole(1),
    })?;
    tests.push(RangeTest {
        op: RangeOp::Lte,
        value: Probe::Whole(9),
    })?;
    Ok(Query::Range { field: 1, tests })
}

fn id_of(alloc: Global, id: &str) -> Result<Query, AllocError> {
    let mut values = List::new(alloc);
    values.push(Text::of(alloc, id)?)?;
    Ok(Query::Ids { values })
}

#[test]
fn queries_of_lists(rt: HostRuntime) -> Result<(), Fail> {
    let a = rt.alloc();
    assert!(rt; is_read(a, "{\"terms\":{\"b\":[true,\"false\"]}}", true_or_false(a)?));
    assert!(rt;
        is_read(
            a,
            "{\"range\":{\"n\":{\"lte\":9,\"gt\":1,\"gte\":null}}}",
            above_1_up_to_9(a)?
        )
    );
    assert!(rt; is_read(a, "{\"ids\":{\"values\":[\"x\"]}}", id_of(a, "x")?));
    Ok(())
}

fn both_and_should(alloc: Global) -> Result<Query, AllocError> {
    let mut must = List::new(alloc);
    must.push(term(alloc, "f")?)?;
    must.push(term(alloc, "m")?)?;
    let must_not = List::new(alloc);
    let mut should = List::new(alloc);
    should.push(Query::All)?;
    Ok(Query::Bool {
        must,
        must_not,
        should,
        minimum: 0,
    })
}

#[test]
fn bool_puts_filter_before_must(rt: HostRuntime) -> Result<(), Fail> {
    let a = rt.alloc();
    let body =
        "{\"bool\":{\"must\":{\"term\":{\"t\":\"m\"}},\"filter\":[{\"term\":{\"t\":\"f\"}}],\"should\":{\"match_all\":{}}}}";
    assert!(rt; is_read(a, body, both_and_should(a)?));
    Ok(())
}

#[test]
fn one_of_should_has_to_match_where_nothing_must(rt: HostRuntime) -> Result<(), Fail> {
    let a = rt.alloc();
    let must = List::new(a);
    let mut must_not = List::new(a);
    must_not.push(Query::All)?;
    let mut should = List::new(a);
    should.push(Query::All)?;
    let wanted = Query::Bool {
        must,
        must_not,
        should,
        minimum: 1,
    };
    let body = "{\"bool\":{\"should\":[{\"match_all\":{}}],\"must_not\":{\"match_all\":{}}}}";
    assert!(rt; is_read(a, body, wanted));
    Ok(())
}

#[test]
fn nested_paths_are_named_by_their_places(rt: HostRuntime) -> Result<(), Fail> {
    let a = rt.alloc();
    let inner = Query::Nested {
        path: 2,
        query: Boxed::new(a, Query::All)?,
    };
    let wanted = Query::Nested {
        path: 0,
        query: Boxed::new(a, inner)?,
    };
    let body =
        "{\"nested\":{\"path\":\"o\",\"query\":{\"nested\":{\"path\":\"o.p\",\"query\":{\"match_all\":{}}}}}}";
    assert!(rt; is_read(a, body, wanted));
    Ok(())
}

/// `front` and `back` so many times around `middle`.
fn around(
    alloc: Global,
    times: u32,
    front: &str,
    middle: &str,
    back: &str,
) -> Result<String, AllocError> {
    let mut out = String::new(alloc);
    for _ in 0..times {
        out.push_str(front)?;
    }
    out.push_str(middle)?;
    for _ in 0..times {
        out.push_str(back)?;
    }
    Ok(out)
}

#[test]
fn at_most_1024_queries_of_32_levels(rt: HostRuntime) -> Result<(), Fail> {
    let a = rt.alloc();
    let all = "{\"match_all\":{}}";
    assert!(rt; query_after(a, 1_023, all).is_ok());
    assert!(rt; is_refused(query_after(a, 1_024, all), 111, ""));
    let body = around(a, 31, "{\"bool\":{\"must\":", all, "}}")?;
    assert!(rt; query_after(a, 0, body.as_str()).is_ok());
    let body = around(a, 32, "{\"bool\":{\"must\":", all, "}}")?;
    let pointer = around(a, 32, "/bool/must", "", "")?;
    assert!(rt; is_refused(query_after(a, 0, body.as_str()), 111, pointer.as_str()));
    Ok(())
}

#[test]
fn at_most_65536_values(rt: HostRuntime) -> Result<(), Fail> {
    let a = rt.alloc();
    let body = around(a, 65_535, "1,", "1]}}", "")?;
    let body = format!(in a; "{{\"terms\":{{\"n\":[{body}")?;
    assert!(rt; query_after(a, 0, body.as_str()).is_ok());
    let body = around(a, 65_536, "1,", "1]}}", "")?;
    let body = format!(in a; "{{\"terms\":{{\"n\":[{body}")?;
    assert!(rt; is_refused(query_after(a, 0, body.as_str()), 111, "/terms/n/65536"));
    Ok(())
}
