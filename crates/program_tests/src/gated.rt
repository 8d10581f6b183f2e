//! Whole runs of many workers, behind gates that hold them up and without. What is wanted of one worker was computed by another
//! program; what meets by the cost model.
use crate::runs::run_words;
use crate::scripts::{seven_shards, two_shards};
use agg_model::Bytes;
use serde_json::Value;
use std::alloc::{AllocError, Global};
use std::process::Abort;
use std::str;
use std::test::Fail;
use std::thread::Threads;
use test_gates::{HeldBack, Meeting};
use worker_gate::{Gate, OpenGate, Point};

/// The answer to a search by the words of `t`, over seven shards.
const ANSWER: &str =
    r#"{"_shards":{"failed":0,"skipped":0,"successful":7,"total":7},"aggregations":{"t":{"buckets":[{"doc_count":12,"key":"a"},{"doc_count":8,"key":"b"}],"doc_count_error_upper_bound":0,"sum_other_doc_count":0}},"hits":{"hits":[],"max_score":null,"total":{"relation":"eq","value":20}},"status":200,"timed_out":false,"took":0}"#;

/// What the script of two shards prints where shard 1 was collected before shard 0 began, and the limit of requests is 5,200 bytes.
const TWO_MET: &str =
    r#"{"errors":false,"items":[{"index":{"_id":"_auto_0","_index":"i","result":"created","status":201}},{"index":{"_id":"_auto_1","_index":"i","result":"created","status":201}},{"index":{"_id":"_auto_2","_index":"i","result":"created","status":201}}],"took":0}
{"error":{"bytes_limit":5200,"bytes_wanted":5378,"durability":"TRANSIENT","reason":"[request] Data too large, data for [search] would be [5378b], which is larger than the limit of [5200b]","type":"circuit_breaking_exception"},"status":429}
{"breakers":{"fielddata":{"estimated_size_in_bytes":28,"granted_size_in_bytes":28,"limit_size_in_bytes":429496729,"overhead_percent":103,"tripped":0},"inflight_requests":{"estimated_size_in_bytes":0,"granted_size_in_bytes":76,"limit_size_in_bytes":1073741824,"overhead_percent":200,"tripped":0},"parent":{"estimated_size_in_bytes":28,"granted_size_in_bytes":4970,"limit_size_in_bytes":751619276,"overhead_percent":100,"tripped":0},"request":{"estimated_size_in_bytes":0,"granted_size_in_bytes":4866,"limit_size_in_bytes":5200,"overhead_percent":100,"tripped":1}}}
"#;

/// What a run with these words prints behind a gate. It is answered to its end.
fn printed<R: Threads + Abort + Sync>(
    rt: &R,
    alloc: Global,
    words: &str,
    script: Bytes,
    gate: &dyn Gate,
) -> Result<String, Fail> {
    let ended = run_words(rt, alloc, words, script, gate)?;
    assert_eq!(rt; ended.status, 0, "{words}");
    let text = str::from_utf8(ended.sink.written())?;
    Ok(String::from_str(alloc, text)?)
}

/// The number at a JSON pointer in a line.
fn number_at(alloc: Global, line: &str, path: &str) -> Result<Option<u64>, Fail> {
    let value = Value::from_str(alloc, line)?;
    Ok(value.pointer(path).and_then(Value::as_u64))
}

/// What the statistics say that a breaker holds, in bytes.
fn held_at(alloc: Global, statistics: &str, breaker: &str) -> Result<Option<u64>, Fail> {
    let path = format!(in alloc; "/breakers/{breaker}/estimated_size_in_bytes")?;
    number_at(alloc, statistics, path.as_str())
}

/// The line of a search that this breaker refused at a total in bytes, or that of one that is not refused.
fn wanted_line(
    alloc: Global,
    breaker: &str,
    total: Option<u64>,
    limit: u64,
) -> Result<String, AllocError> {
    match total {
        Some(bytes) => format!(in alloc;
            "{{\"error\":{{\"bytes_limit\":{limit},\"bytes_wanted\":{bytes},\"durability\":\"TRANSIENT\",\"reason\":\"[{breaker}] Data too large, data for [search] would be [{bytes}b], which is larger than the limit of [{limit}b]\",\"type\":\"circuit_breaking_exception\"}},\"status\":429}}"
        ),
        None => String::from_str(alloc, ANSWER),
    }
}

/// The first task goes on when the second is claimed, by another worker.
#[test]
fn two_tasks_meet(rt: HostRuntime) -> Result<(), Fail> {
    let alloc = rt.alloc();
    let gate = HeldBack::new(0, Point::Claimed, 1);
    let words = "--batched-reduce-size 2 --workers 2";
    let text = printed(&rt, alloc, words, seven_shards(alloc, 1)?, &gate)?;
    assert!(rt; gate.has_released());
    assert_eq!(rt; text.lines().nth(1), Some(ANSWER));
    Ok(())
}

/// The first amount of each task is 4,608 bytes. The result of shard 1, two words, costs 770; in the order of the shards the
/// search would be refused at 641 + 4,608.
#[test]
fn charges_meet(rt: HostRuntime) -> Result<(), Fail> {
    let alloc = rt.alloc();
    let gate = HeldBack::new(0, Point::Collected, 1);
    let words = "--workers 2 -E indices.breaker.request.limit=5200b";
    let text = printed(&rt, alloc, words, two_shards(alloc, 1)?, &gate)?;
    assert!(rt; gate.has_released());
    assert_eq!(rt; text.as_str(), TWO_MET);
    Ok(())
}

/// A limit, in bytes, and the total at which one worker is refused; none where it is not.
struct Case {
    setting: &'static str,
    breaker: &'static str,
    limit: u64,
    alone: Option<u64>,
}

/// Two tasks that begin side by side ask for 9,216 bytes. Where one worker is refused, so is every order of more: the last task begins with
/// 4,608 beside a result of 641 at least, and a body is charged before any task.
const CASES: [Case; 5] = [
    Case {
        setting: "indices.breaker.request.limit",
        breaker: "request",
        limit: 5_000,
        alone: Some(5_378),
    },
    Case {
        setting: "indices.breaker.request.limit",
        breaker: "request",
        limit: 9_000,
        alone: None,
    },
    Case {
        setting: "indices.breaker.total.limit",
        breaker: "parent",
        limit: 5_000,
        alone: Some(5_120),
    },
    Case {
        setting: "indices.breaker.total.limit",
        breaker: "parent",
        limit: 9_000,
        alone: None,
    },
    Case {
        setting: "network.breaker.inflight_requests.limit",
        breaker: "inflight_requests",
        limit: 50,
        alone: Some(76),
    },
];

/// The words of a run at a limit, in bytes.
fn storm_words(
    alloc: Global,
    workers: u32,
    setting: &str,
    limit: u64,
) -> Result<String, AllocError> {
    format!(in alloc; "--batched-reduce-size 2 --workers {workers} -E {setting}={limit}b")
}

// Asserts the line of a search, which tells a total above the limit or is the whole answer, and gives the total.
fn expect_line(
    rt: &impl Abort,
    alloc: Global,
    case: &Case,
    line: &str,
) -> Result<Option<u64>, Fail> {
    let total = number_at(alloc, line, "/error/bytes_wanted")?;
    let wanted = wanted_line(alloc, case.breaker, total, case.limit)?;
    assert!(rt; line == wanted.as_str(), "{line}");
    if let Some(bytes) = total {
        assert!(rt; case.limit < bytes, "{line}");
    }
    Ok(total)
}

fn expect_held(
    rt: &impl Abort,
    alloc: Global,
    statistics: &str,
    breaker: &str,
    held: u64,
) -> Result<(), Fail> {
    assert_eq!(rt;
        held_at(alloc, statistics, breaker)?,
        Some(held),
        "{breaker}: {statistics}"
    );
    Ok(())
}

// Asserts that nothing is held but the columns: 20 values of 8 bytes and 12 words of one byte, times 1.03.
fn expect_columns(rt: &impl Abort, alloc: Global, statistics: &str) -> Result<(), Fail> {
    expect_held(rt, alloc, statistics, "request", 0)?;
    expect_held(rt, alloc, statistics, "fielddata", 178)?;
    expect_held(rt, alloc, statistics, "inflight_requests", 0)?;
    expect_held(rt, alloc, statistics, "parent", 178)
}

/// Runs a case, and answers the total at which the search was refused.
fn refused_at<R: Threads + Abort + Sync>(
    rt: &R,
    alloc: Global,
    case: &Case,
    workers: u32,
    gate: &dyn Gate,
) -> Result<Option<u64>, Fail> {
    let words = storm_words(alloc, workers, case.setting, case.limit)?;
    let text = printed(rt, alloc, words.as_str(), seven_shards(alloc, 1)?, gate)?;
    assert_eq!(rt; text.lines().count(), 3, "{words}");
    expect_columns(rt, alloc, text.lines().last().unwrap_or_default())?;
    expect_line(rt, alloc, case, text.lines().nth(1).unwrap_or_default())
}

// Asserts where one worker is refused, and that eight are in any order where that is sure.
fn expect_storm<R: Threads + Abort + Sync>(rt: &R, alloc: Global, case: &Case) -> Result<(), Fail> {
    assert_eq!(rt; refused_at(rt, alloc, case, 1, &OpenGate)?, case.alone);
    let open = refused_at(rt, alloc, case, 8, &OpenGate)?;
    let met = refused_at(rt, alloc, case, 8, &Meeting::new(2, 100_000))?;
    if case.alone.is_some() {
        assert!(rt; open.is_some() && met.is_some(), "{}", case.setting);
    }
    Ok(())
}

/// Whatever order charges come in, a search is answered in full or refused at a total above the limit.
#[test]
fn storms(rt: HostRuntime) -> Result<(), Fail> {
    for case in &CASES {
        expect_storm(&rt, rt.alloc(), case)?;
    }
    Ok(())
}

// Asserts what so many searches print one after another, and what they are granted.
fn expect_answers(
    rt: &impl Abort,
    alloc: Global,
    text: &str,
    searches: usize,
    granted: u64,
) -> Result<(), Fail> {
    for line in text.lines().skip(1).take(searches) {
        assert_eq!(rt; line, ANSWER);
    }
    let statistics = text.lines().skip(searches).nth(1).unwrap_or_default();
    let path = "/breakers/request/granted_size_in_bytes";
    assert_eq!(rt; number_at(alloc, statistics, path)?, Some(granted));
    Ok(())
}

// Asserts that a wave of all searches prints the same.
fn expect_same<R: Threads + Abort + Sync>(
    rt: &R,
    alloc: Global,
    workers: u32,
    searches: usize,
    alone: &str,
) -> Result<(), Fail> {
    let words = format!(in alloc; "--workers {workers} --concurrent-searches {searches}")?;
    let script = seven_shards(alloc, searches)?;
    let text = printed(rt, alloc, words.as_str(), script, &OpenGate)?;
    assert_eq!(rt; text.as_str(), alone, "{words}");
    Ok(())
}

fn expect_wave<R: Threads + Abort + Sync>(
    rt: &R,
    alloc: Global,
    searches: usize,
    granted: u64,
) -> Result<(), Fail> {
    let alone = printed(rt, alloc, "", seven_shards(alloc, searches)?, &OpenGate)?;
    expect_answers(rt, alloc, alone.as_str(), searches, granted)?;
    expect_same(rt, alloc, 1, searches, alone.as_str())?;
    expect_same(rt, alloc, 8, searches, alone.as_str())
}

/// The searches of a wave are answered and charged, in all, as one after another, where no limit is near.
#[test]
fn waves_are_answered_as_one_search_after_another(rt: HostRuntime) -> Result<(), Fail> {
    expect_wave(&rt, rt.alloc(), 2, 78_508)?;
    expect_wave(&rt, rt.alloc(), 3, 117_762)
}
