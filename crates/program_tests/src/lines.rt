//! The lines that the program prints.
use agg_model::{
    ActionKind, Applied, BreakerStats, Failure, ItemEnd, ItemRefusal, List, Refused, Text, Totals,
    Tripped, Usage, Which,
};
use agg_response::{
    bulk_line, exception, refusal, script_line, settings_line, stats_line, usage_line,
};
use bulk_items::Items;
use std::alloc::{AllocError, Global};
use std::process::Abort;
use std::test::Fail;

// Asserts what a line is. The lines are made in functions that promise nothing of them, since a caller has no use for it.
fn expect(rt: &impl Abort, line: Text, wanted: &str) {
    assert!(rt; line.as_str() == wanted);
}

/// A create, the same again, and the delete of an id that is not there.
fn items(alloc: Global) -> Result<Items, AllocError> {
    let refused = ItemEnd::Refused(ItemRefusal {
        number: 26,
        path: Text::of(alloc, "")?,
    });
    let created = ItemEnd::Applied(Applied::Created);
    let missing = ItemEnd::Applied(Applied::NotFound);
    let mut items = Items::new(alloc);
    items.push(ActionKind::Create, "1", created)?;
    items.push(ActionKind::Create, "1", refused)?;
    items.push(ActionKind::Delete, "9", missing)?;
    Ok(items)
}

/// The line of these items.
fn line_of_items(alloc: Global) -> Result<Text, AllocError> {
    let index = Text::of(alloc, "i")?;
    bulk_line(alloc, &index, &items(alloc)?, false)
}

#[test]
fn a_bulk_line_lists_each_item_with_its_end(rt: HostRuntime) -> Result<(), Fail> {
    let wanted =
        "{\"errors\":true,\"items\":[{\"create\":{\"_id\":\"1\",\"_index\":\"i\",\"result\":\"created\",\"status\":201}},{\"create\":{\"_id\":\"1\",\"_index\":\"i\",\"error\":{\"number\":26,\"type\":\"version_conflict_engine_exception\"},\"status\":409}},{\"delete\":{\"_id\":\"9\",\"_index\":\"i\",\"result\":\"not_found\",\"status\":404}}],\"took\":0}";
    expect(&rt, line_of_items(rt.alloc())?, wanted);
    Ok(())
}

/// The line of a search that is refused at one byte above the limit.
fn line_of_exception(alloc: Global) -> Result<Text, AllocError> {
    let tripped = Tripped {
        which: Which::Request,
        wanted: 4866,
        limit: 4865,
    };
    exception(alloc, &tripped, "search", 429, &List::new(alloc))
}

#[test]
fn an_exception_names_the_breaker_and_the_bytes(rt: HostRuntime) -> Result<(), Fail> {
    let wanted =
        "{\"error\":{\"bytes_limit\":4865,\"bytes_wanted\":4866,\"durability\":\"TRANSIENT\",\"reason\":\"[request] Data too large, data for [search] would be [4866b], which is larger than the limit of [4865b]\",\"type\":\"circuit_breaking_exception\"},\"status\":429}";
    expect(&rt, line_of_exception(rt.alloc())?, wanted);
    Ok(())
}

/// The line of an answer with too many buckets, where shard 1 failed.
fn line_of_refusal(alloc: Global) -> Result<Text, AllocError> {
    let tripped = Tripped {
        which: Which::Request,
        wanted: 4608,
        limit: 4000,
    };
    let mut failures = List::new(alloc);
    failures.push(Failure { shard: 1, tripped })?;
    refusal(
        alloc,
        &Refused::TooManyBuckets { count: 3, max: 2 },
        &failures,
    )
}

#[test]
fn lines_name_the_shards_that_failed(rt: HostRuntime) -> Result<(), Fail> {
    let wanted =
        "{\"error\":{\"count\":3,\"failures\":[{\"reason\":{\"bytes_limit\":4000,\"bytes_wanted\":4608,\"durability\":\"TRANSIENT\",\"reason\":\"[request] Data too large, data for [search] would be [4608b], which is larger than the limit of [4000b]\",\"type\":\"circuit_breaking_exception\"},\"shard\":1}],\"max_buckets\":2,\"reason\":\"too many buckets\",\"type\":\"too_many_buckets_exception\"},\"status\":400}";
    expect(&rt, line_of_refusal(rt.alloc())?, wanted);
    Ok(())
}

fn line_of_settings(alloc: Global) -> Result<Text, AllocError> {
    let name = Text::of(alloc, "search.max_buckets")?;
    settings_line(alloc, Some(&name))
}

#[test]
fn a_settings_line_is_refused(rt: HostRuntime) -> Result<(), Fail> {
    let wanted =
        "{\"error\":{\"key\":\"search.max_buckets\",\"type\":\"settings_exception\"},\"status\":400}";
    expect(&rt, line_of_settings(rt.alloc())?, wanted);
    Ok(())
}

fn line_of_usage(alloc: Global) -> Result<Text, AllocError> {
    let usage = Usage {
        key: Text::of(alloc, "--workers")?,
        value: Text::of(alloc, "0")?,
    };
    usage_line(alloc, &usage)
}

fn line_of_script(alloc: Global) -> Result<Text, AllocError> {
    let path = Text::of(alloc, "/mappings/properties/x/type")?;
    script_line(alloc, 31, 1, &path)
}

#[test]
fn a_run_that_ends_early_says_why(rt: HostRuntime) -> Result<(), Fail> {
    let wanted =
        "{\"error\":{\"key\":\"--workers\",\"type\":\"usage\",\"value\":\"0\"},\"status\":2}";
    expect(&rt, line_of_usage(rt.alloc())?, wanted);
    let wanted =
        "{\"error\":{\"line\":1,\"number\":31,\"path\":\"/mappings/properties/x/type\",\"type\":\"bad_index_line\"},\"status\":5}";
    expect(&rt, line_of_script(rt.alloc())?, wanted);
    Ok(())
}

fn numbers(limit: u64, granted: u64, overhead: u32) -> BreakerStats {
    BreakerStats {
        limit,
        estimated: 0,
        granted,
        overhead,
        tripped: 0,
    }
}

fn line_of_statistics(alloc: Global) -> Result<Text, AllocError> {
    let stats = Totals {
        request: numbers(644245094, 4873, 100),
        fielddata: numbers(429496729, 0, 103),
        inflight: numbers(1073741824, 76, 200),
        parent: numbers(751619276, 4949, 100),
    };
    stats_line(alloc, &stats)
}

#[test]
fn statistics_have_the_numbers_of_each_breaker(rt: HostRuntime) -> Result<(), Fail> {
    let wanted =
        "{\"breakers\":{\"fielddata\":{\"estimated_size_in_bytes\":0,\"granted_size_in_bytes\":0,\"limit_size_in_bytes\":429496729,\"overhead_percent\":103,\"tripped\":0},\"inflight_requests\":{\"estimated_size_in_bytes\":0,\"granted_size_in_bytes\":76,\"limit_size_in_bytes\":1073741824,\"overhead_percent\":200,\"tripped\":0},\"parent\":{\"estimated_size_in_bytes\":0,\"granted_size_in_bytes\":4949,\"limit_size_in_bytes\":751619276,\"overhead_percent\":100,\"tripped\":0},\"request\":{\"estimated_size_in_bytes\":0,\"granted_size_in_bytes\":4873,\"limit_size_in_bytes\":644245094,\"overhead_percent\":100,\"tripped\":0}}}";
    expect(&rt, line_of_statistics(rt.alloc())?, wanted);
    Ok(())
}
