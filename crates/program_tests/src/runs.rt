//! Runs over memory. What is wanted was computed by another program.
use agg_base::{MemorySink, MemorySource};
use agg_listen::{Audience, ListListener, Listener, Told};
use agg_model::{Bytes, List, Text};
use agg_program::run;
use std::alloc::{AllocError, Global};
use std::process::Abort;
use std::test::Fail;
use std::thread::Threads;
use worker_gate::{Gate, OpenGate};

pub(crate) const INDEX: &str =
    r#"{"index":"i","mappings":{"properties":{"b":{"type":"boolean"},"n":{"type":"long"},"t":{"type":"keyword"}}},"settings":{"number_of_shards":1}}"#;

/// Behind the index line: one document and two searches, with an empty line where a header is due.
const TWO_BODIES: &str =
    "\n\n{\"index\":{}}\n{\"t\":\"a\"}\n\n{}\n{\"aggs\":{\"t\":{\"terms\":{\"field\":\"t\"}}}}\n\r\n{}\n{\"aggs\":{\"u\":{\"terms\":{\"field\":\"t\"}}}}";

const TWO_ANSWERS: &str =
    r#"{"errors":false,"items":[{"index":{"_id":"_auto_0","_index":"i","result":"created","status":201}}],"took":0}
{"_shards":{"failed":0,"skipped":0,"successful":1,"total":1},"aggregations":{"t":{"buckets":[{"doc_count":1,"key":"a"}],"doc_count_error_upper_bound":0,"sum_other_doc_count":0}},"hits":{"hits":[],"max_score":null,"total":{"relation":"eq","value":1}},"status":200,"timed_out":false,"took":0}
{"_shards":{"failed":0,"skipped":0,"successful":1,"total":1},"aggregations":{"u":{"buckets":[{"doc_count":1,"key":"a"}],"doc_count_error_upper_bound":0,"sum_other_doc_count":0}},"hits":{"hits":[],"max_score":null,"total":{"relation":"eq","value":1}},"status":200,"timed_out":false,"took":0}
{"breakers":{"fielddata":{"estimated_size_in_bytes":10,"granted_size_in_bytes":10,"limit_size_in_bytes":429496729,"overhead_percent":103,"tripped":0},"inflight_requests":{"estimated_size_in_bytes":0,"granted_size_in_bytes":152,"limit_size_in_bytes":1073741824,"overhead_percent":200,"tripped":0},"parent":{"estimated_size_in_bytes":10,"granted_size_in_bytes":10216,"limit_size_in_bytes":751619276,"overhead_percent":100,"tripped":0},"request":{"estimated_size_in_bytes":0,"granted_size_in_bytes":10054,"limit_size_in_bytes":644245094,"overhead_percent":100,"tripped":0}}}
"#;

/// Behind the index line: one document and one search.
pub(crate) const ONE_BODY: &str = r#"

{"index":{}}
{"t":"a"}

{}
{"aggs":{"t":{"terms":{"field":"t"}}}}
"#;

pub(crate) const ONE_ANSWER: &str =
    r#"{"errors":false,"items":[{"index":{"_id":"_auto_0","_index":"i","result":"created","status":201}}],"took":0}
{"_shards":{"failed":0,"skipped":0,"successful":1,"total":1},"aggregations":{"t":{"buckets":[{"doc_count":1,"key":"a"}],"doc_count_error_upper_bound":0,"sum_other_doc_count":0}},"hits":{"hits":[],"max_score":null,"total":{"relation":"eq","value":1}},"status":200,"timed_out":false,"took":0}
{"breakers":{"fielddata":{"estimated_size_in_bytes":10,"granted_size_in_bytes":10,"limit_size_in_bytes":429496729,"overhead_percent":103,"tripped":0},"inflight_requests":{"estimated_size_in_bytes":0,"granted_size_in_bytes":76,"limit_size_in_bytes":1073741824,"overhead_percent":200,"tripped":0},"parent":{"estimated_size_in_bytes":10,"granted_size_in_bytes":5113,"limit_size_in_bytes":751619276,"overhead_percent":100,"tripped":0},"request":{"estimated_size_in_bytes":0,"granted_size_in_bytes":5027,"limit_size_in_bytes":644245094,"overhead_percent":100,"tripped":0}}}
"#;

/// The texts, one behind the other.
pub(crate) fn joined(alloc: Global, front: &str, rest: &str) -> Result<Bytes, AllocError> {
    let mut bytes = Vec::new(alloc);
    bytes.extend_from_slice(front.as_bytes())?;
    bytes.extend_from_slice(rest.as_bytes())?;
    Ok(Bytes::from_vec(bytes))
}

/// The one call of a source or a sink that fails, counted from 0; none where none fails.
fn failing(alloc: Global, call: Option<u64>) -> Result<List<u64>, AllocError> {
    let mut calls = List::new(alloc);
    if let Some(call) = call {
        calls.push(call)?;
    }
    Ok(calls)
}

/// The read and the write of a run that fail, counted from 0.
#[derive(Clone, Copy)]
pub(crate) struct FailedCalls {
    pub(crate) read: Option<u64>,
    pub(crate) write: Option<u64>,
}

pub(crate) const NO_FAULT: FailedCalls = FailedCalls {
    read: None,
    write: None,
};

/// What a run is given beside its input.
#[derive(Clone, Copy)]
pub(crate) struct Setup<'a> {
    pub(crate) words: &'a [Text],
    /// How many bytes a read or a write moves at most; 0 is taken as 1.
    pub(crate) piece: usize,
    pub(crate) faults: FailedCalls,
    /// How many answers each listener has room for.
    pub(crate) rooms: &'a [u32],
}

/// How a run ended, with its sink and the listeners that are left.
#[derive(Drop)]
pub(crate) struct Ended {
    pub(crate) status: u8,
    pub(crate) sink: MemorySink,
    pub(crate) audience: Audience<ListListener>,
}

/// Listeners with room for so many answers each.
fn audience_with_room(alloc: Global, rooms: &[u32]) -> Result<Audience<ListListener>, AllocError> {
    let mut listeners = Vec::new(alloc);
    for room in rooms {
        listeners.push(ListListener::new(alloc, *room)?)?;
    }
    Ok(Audience::new(listeners))
}

/// Runs over memory. It promises nothing of the end, since a test only looks at it.
pub(crate) fn run_in_memory<R: Threads + Sync>(
    rt: &R,
    alloc: Global,
    input: Bytes,
    setup: Setup<'_>,
    gate: &dyn Gate,
) -> Result<Ended, AllocError> {
    let piece = setup.piece.max(1);
    let mut source = MemorySource::new(input, piece, failing(alloc, setup.faults.read)?);
    let mut sink = MemorySink::new(alloc, 1_000_000, piece, failing(alloc, setup.faults.write)?)?;
    let mut audience = audience_with_room(alloc, setup.rooms)?;
    let status = run(
        rt,
        alloc,
        setup.words,
        &mut source,
        &mut sink,
        &mut audience,
        gate,
    );
    Ok(Ended {
        status,
        sink,
        audience,
    })
}

/// The words of a text, which are split at blanks.
fn words_in(alloc: Global, text: &str) -> Result<Vec<Text>, AllocError> {
    let mut words = Vec::new(alloc);
    for word in text.split_whitespace() {
        words.push(Text::of(alloc, word)?)?;
    }
    Ok(words)
}

/// Runs over memory with the words of a text, and no listener.
pub(crate) fn run_words<R: Threads + Sync>(
    rt: &R,
    alloc: Global,
    words: &str,
    input: Bytes,
    gate: &dyn Gate,
) -> Result<Ended, AllocError> {
    let texts = words_in(alloc, words)?;
    let setup = Setup {
        words: texts.as_slice(),
        piece: 65_536,
        faults: NO_FAULT,
        rooms: &[],
    };
    run_in_memory(rt, alloc, input, setup, gate)
}

// Asserts how a run ended, and all that it wrote.
pub(crate) fn expect_end(rt: &impl Abort, ended: &Ended, status: u8, output: &str) {
    assert_eq!(rt; ended.status, status);
    assert!(rt; ended.sink.written() == output.as_bytes());
}

/// Whether these are the first bytes of all.
pub(crate) fn is_front(front: &[u8], all: &[u8]) -> bool {
    all.strip_prefix(front).is_some()
}

/// Whether these are whole lines, and the first of all.
pub(crate) fn are_first_lines(written: &[u8], all: &[u8]) -> bool {
    is_front(written, all) && (written.is_empty() || written.ends_with(b"\n".as_slice()))
}

/// How many lines these are.
pub(crate) fn line_count(bytes: &[u8]) -> usize {
    bytes.iter().filter(|byte| **byte == b'\n').count()
}

// Asserts what two searches are answered, where so many bytes are moved at a time.
fn expect_two_answers<R: Threads + Abort + Sync>(
    rt: &R,
    alloc: Global,
    piece: usize,
) -> Result<(), Fail> {
    let setup = Setup {
        words: &[],
        piece,
        faults: NO_FAULT,
        rooms: &[],
    };
    let input = joined(alloc, INDEX, TWO_BODIES)?;
    let ended = run_in_memory(rt, alloc, input, setup, &OpenGate)?;
    expect_end(rt, &ended, 0, TWO_ANSWERS);
    Ok(())
}

#[test]
fn two_bodies_are_answered_in_pieces_of_any_length(rt: HostRuntime) -> Result<(), Fail> {
    for piece in [1usize, 7, 65_536] {
        expect_two_answers(&rt, rt.alloc(), piece)?;
    }
    Ok(())
}

// Asserts how many listeners are left, and that each heard this answer and no other.
fn expect_left(
    rt: &impl Abort,
    audience: &Audience<ListListener>,
    left: usize,
    told: Option<Told>,
) {
    assert_eq!(rt; audience.listeners().len(), left);
    for listener in audience.listeners() {
        assert_eq!(rt; listener.entry(0), told);
        assert_eq!(rt; listener.entry(1), None);
    }
}

#[test]
fn words_outside_the_grammar_end_the_run(rt: HostRuntime) -> Result<(), Fail> {
    let words = [Text::of(rt.alloc(), "--workers")?];
    let setup = Setup {
        words: words.as_slice(),
        piece: 10,
        faults: NO_FAULT,
        rooms: &[8],
    };
    let input = joined(rt.alloc(), INDEX, ONE_BODY)?;
    let ended = run_in_memory(&rt, rt.alloc(), input, setup, &OpenGate)?;
    let wanted = "{\"error\":{\"key\":\"\",\"type\":\"usage\",\"value\":\"\"},\"status\":2}\n";
    expect_end(&rt, &ended, 2, wanted);
    expect_left(&rt, &ended.audience, 1, None);
    Ok(())
}

/// Runs one search, with listeners that have room for so many answers each.
fn run_with_room<R: Threads + Sync>(
    rt: &R,
    alloc: Global,
    rooms: &[u32],
) -> Result<Ended, AllocError> {
    let setup = Setup {
        words: &[],
        piece: 65_536,
        faults: NO_FAULT,
        rooms,
    };
    run_in_memory(rt, alloc, joined(alloc, INDEX, ONE_BODY)?, setup, &OpenGate)
}

// Asserts how many listeners are left, which all heard of the answer.
fn expect_heard<R: Threads + Abort + Sync>(
    rt: &R,
    alloc: Global,
    rooms: &[u32],
    left: usize,
) -> Result<(), Fail> {
    let ended = run_with_room(rt, alloc, rooms)?;
    expect_end(rt, &ended, 0, ONE_ANSWER);
    // The second line of `ONE_ANSWER`.
    let told = Told {
        line: 2,
        status: 200,
        bytes: 290,
    };
    expect_left(rt, &ended.audience, left, Some(told));
    Ok(())
}

#[test]
fn listeners_hear_of_the_answers_and_leave_without_room(rt: HostRuntime) -> Result<(), Fail> {
    expect_heard(&rt, rt.alloc(), &[0, 8], 1)?;
    expect_heard(&rt, rt.alloc(), &[0, 0], 0)
}

/// For runs outside the gate in which one allocation after another fails. With ample memory all is written.
#[test]
fn where_memory_runs_out_whole_lines_are_written(rt: HostRuntime) -> Result<(), Fail> {
    let ended = run_with_room(&rt, rt.alloc(), &[])?;
    if ended.status == 7 {
        assert!(rt; are_first_lines(ended.sink.written(), ONE_ANSWER.as_bytes()));
    } else {
        expect_end(&rt, &ended, 0, ONE_ANSWER);
    }
    Ok(())
}
