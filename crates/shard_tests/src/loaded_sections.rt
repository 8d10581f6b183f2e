//! The first two sections of a script, loaded or refused.
use agg_base::{Block, Lines, MemorySource};
use agg_bulk::{LoadEnd, load, load_sections};
use agg_model::{Applied, Bytes, Limits, List as Numbers, Settings, Which};
use bulk_items::EndView;
use script_lines::ScriptFault;
use std::alloc::Global;
use std::process::Abort;
use std::test::Fail;

/// The number and the line of the refusal of a script; 0 and the number of items where it is loaded.
fn end_of(alloc: Global, script: &[u8]) -> Result<(u64, u64), Fail> {
    let mut source = MemorySource::new(Bytes::of(alloc, script)?, 7, Numbers::new(alloc));
    let mut lines = Lines::new(alloc, &mut source, Block::new(alloc)?);
    match load_sections(alloc, &mut lines) {
        Ok(sections) => Ok((0, sections.items.len() as u64)),
        Err(ScriptFault::Refused(refusal)) => Ok((u64::from(refusal.number), refusal.line)),
        Err(_fault) => Err(Fail::new("no memory")),
    }
}

// A script, and the number and the line of its refusal; 0 and the number of items where it is loaded.
type Script = (&'static [u8], u64, u64);

fn scripts() -> [Script; 11] {
    [
        (b"", 38, 0),
        (b"{\"index\":5}\n\n\n", 31, 1),
        (b"{\"index\":\"i\"}", 38, 1),
        (b"{\"index\":\"i\"}\n{}\n", 38, 2),
        (b"{\"index\":\"i\"}\n\r\n", 38, 2),
        (b"{\"index\":\"i\"}\n\n{\"index\":[]}\n", 32, 3),
        (b"{\"index\":\"i\"}\n\n{\"update\":{}}\n", 33, 3),
        (b"{\"index\":\"i\"}\n\n{\"index\":{}}\n", 34, 3),
        (b"{\"index\":\"i\"}\n\n{\"index\":{}}\n\n", 34, 3),
        (b"{\"index\":\"i\"}\n\n{\"index\":{}}\n{}\n", 38, 4),
        (
            b"{\"index\":\"i\"}\n\n{\"delete\":{\"_id\":\"7\"}}\n{\"index\":{}}\n5\n\n",
            0,
            2,
        ),
    ]
}

#[test]
fn each_fault_is_refused_at_its_line(rt: HostRuntime) -> Result<(), Fail> {
    for (script, number, line) in scripts() {
        assert_eq!(rt;
            end_of(rt.alloc(), script)?,
            (number, line),
            "of {script:?}"
        );
    }
    Ok(())
}

/// An index of two shards with a boolean, a byte and a keyword.
const INDEX: &[u8] =
    b"{\"index\":\"i\",\"mappings\":{\"properties\":{\"b\":{\"type\":\"boolean\"},\"n\":{\"type\":\"byte\"},\"t\":{\"type\":\"keyword\"}}},\"settings\":{\"number_of_shards\":2}}\n\n";

/// How an item ended: `c` created, `u` updated, `d` deleted, `n` nothing found, `r` refused.
fn letter_of(end: EndView) -> u8 {
    match end {
        EndView::Applied(Applied::Created) => b'c',
        EndView::Applied(Applied::Updated) => b'u',
        EndView::Applied(Applied::Deleted) => b'd',
        EndView::Applied(Applied::NotFound) => b'n',
        EndView::Refused(_refusal) => b'r',
    }
}

fn settings_of(fielddata: u64) -> Settings {
    Settings {
        workers: 1,
        batch: 512,
        width: 1,
        limits: Limits {
            request: 1000,
            fielddata,
            inflight: 1000,
            parent: 1000,
        },
        heap: 1000,
        max_buckets: 65536,
        scan: false,
        generate: None,
    }
}

/// How the items of these bulk lines ended, and what the columns are charged with; `!` and what was wanted where that is
/// beyond the limit at fielddata.
fn loaded(alloc: Global, bulk: &[u8], fielddata: u64) -> Result<(Vec<u8>, u64), Fail> {
    let mut script = Vec::new(alloc);
    script.extend_from_slice(INDEX)?;
    script.extend_from_slice(bulk)?;
    let bytes = Bytes::of(alloc, script.as_slice())?;
    let mut source = MemorySource::new(bytes, 7, Numbers::new(alloc));
    let mut lines = Lines::new(alloc, &mut source, Block::new(alloc)?);
    let mut ends = Vec::new(alloc);
    match load(alloc, &mut lines, &settings_of(fielddata)) {
        Ok(loaded) => {
            for place in 0..loaded.items.len() {
                ends.push(letter_of(loaded.items.end(place)))?;
            }
            Ok((ends, loaded.pass.hold(Which::Fielddata)))
        }
        Err(LoadEnd::Columns(tripped)) => {
            ends.push(b'!')?;
            Ok((ends, tripped.wanted))
        }
        Err(_end) => Err(Fail::new("not loaded")),
    }
}

// Bulk lines with the limit at fielddata, and how their items ended with what was charged.
type Load = (&'static [u8], u64, &'static [u8], u64);

fn loads() -> [Load; 5] {
    [
        // A create over a live id, and a delete of none: eight bytes and the word, times 1.03, rounded up.
        (
            b"{\"create\":{\"_id\":\"1\"}}\n{\"t\":\"a\"}\n{\"create\":{\"_id\":\"1\"}}\n{\"t\":\"b\"}\n{\"delete\":{\"_id\":\"9\"}}\n\n",
            1000,
            b"crn",
            10,
        ),
        // Values of another type or out of range, and a source that is no object.
        (
            b"{\"index\":{}}\n{\"n\":128}\n{\"index\":{}}\n{\"n\":1.5}\n{\"index\":{}}\n{\"b\":7}\n{\"index\":{}}\n[]\n{\"index\":{}}\n{\"n\":127,\"b\":true}\n\n",
            1000,
            b"rrrrc",
            17,
        ),
        // A document that is replaced and then deleted.
        (
            b"{\"index\":{\"_id\":\"7\"}}\n{\"t\":\"a\"}\n{\"index\":{\"_id\":\"7\"}}\n{\"t\":\"bb\"}\n{\"delete\":{\"_id\":\"7\"}}\n\n",
            0,
            b"cud",
            0,
        ),
        // At the limit, and one byte beyond it.
        (b"{\"index\":{}}\n{\"t\":\"a\"}\n\n", 10, b"c", 10),
        (b"{\"index\":{}}\n{\"t\":\"a\"}\n\n", 9, b"!", 10),
    ]
}

fn expect_load(rt: &impl Abort, alloc: Global, load: Load) -> Result<(), Fail> {
    let (bulk, fielddata, wanted, charge) = load;
    let (ends, held) = loaded(alloc, bulk, fielddata)?;
    assert_eq!(rt; ends.as_slice(), wanted);
    assert_eq!(rt; held, charge);
    Ok(())
}

#[test]
fn actions_and_the_charge_of_what_they_leave(rt: HostRuntime) -> Result<(), Fail> {
    for load in loads() {
        expect_load(&rt, rt.alloc(), load)?;
    }
    Ok(())
}
