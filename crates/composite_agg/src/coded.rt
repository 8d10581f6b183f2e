//! Codes that stand for keys, by which a key is found among many with few looks at keys themselves. They are guesses, which no
//! contract rests on.
ghost use Rattle.std.specs.Prelude.{◌≡◌, ◌<◌, IfErr, IfOk, IfSome, IsTrue, T, length};
ghost use Rattle.std.specs.List.{list_all};
ghost use Rattle.agg_evaluation.specs.CompositeKeys.{is_composite_of};
ghost use Rattle.composite_agg.specs.InOrder.{IsInOrder};
ghost use Rattle.composite_agg.specs.Runs.{AreFilled, IsGapFor, IsSpotOf, in_runs};
ghost use Rattle.shard_columns.specs.Built.{IsShard};

use crate::behind::only_ordinal;
use crate::keyed::HasKey;
use crate::lasts::Lasts;
use crate::odometer::{Combinations, Wheel};
use crate::parts::Part;
use crate::places::is_before;
use crate::runs::{Spot, find_spot};
use crate::sought::Sought;
use agg_model::{CompositeSource, Kind, List};
use shard_columns::Shard;
use std::cmp::Ordering;

/// What stands for a key: a number for its first part, and one for its second, 0 where it has none.
#[derive(Clone, Copy, Debug, Default, PartialEq, Eq, PartialOrd, Ord)]
pub struct Code {
    first: u64,
    second: u64,
}

/// What has a composite key and its code.
pub trait HasCode: HasKey {
    /// The code.
    fn code(&self) -> Code;
}

// The number that a whole number gives: those of 64 bits rise with it.
fn number_of_whole(number: i128) -> u64 {
    let raised = number
        .saturating_add(i128::from(i64::MAX))
        .saturating_add(1);
    if raised < 0 {
        0
    } else {
        u64::try_from(raised).unwrap_or(u64::MAX)
    }
}

// The number of a part of a row at a source: the place of a word in the dictionary of the field, or what a number gives. They
// mostly rise in the order of the source.
fn number_of_part(shard: &Shard, row: u32, source: &CompositeSource, part: Part) -> u64
    requires built { IsShard shard.now }
    requires in_range { row < length shard.now.rows }
{
    let number = match part {
        Part::Whole(number) => number_of_whole(number),
        Part::Flag(flag) => u64::from(flag),
        Part::Word(word) => {
            let place = match only_ordinal(shard, row, source) {
                Some(own) => Some(own),
                None => shard.find_word(source.field, word.as_bytes()),
            };
            u64::from(place.unwrap_or(0))
        }
        Part::Null => 0,
    };
    if source.descending { !number } else { number }
}

// The number of the part that the wheel at this place shows, 0 where there is none.
fn number_at(
    shard: &Shard,
    row: u32,
    sources: &[CompositeSource],
    wheels: &[Wheel],
    place: usize,
) -> u64
    requires built { IsShard shard.now }
    requires in_range { row < length shard.now.rows }
{
    match (sources.get(place), wheels.get(place)) {
        (Some(source), Some(wheel)) => number_of_part(shard, row, source, wheel.part),
        _ => 0,
    }
}

/// The code of the combination of a row that is chosen. Codes of keys in the order of the sources seldom fall, and keys whose
/// first two parts are the same have one.
pub fn code_of(shard: &Shard, row: u32, kind: &Kind, combinations: &Combinations) -> Code
    requires built { IsShard shard.now }
    requires in_range { row < length shard.now.rows }
{
    match kind {
        Kind::Composite { sources, .. } => {
            let sources = sources.as_slice();
            let wheels = combinations.wheels.as_slice();
            Code {
                first: number_at(shard, row, sources, wheels, 0),
                second: number_at(shard, row, sources, wheels, 1),
            }
        }
        Kind::Terms { .. }
        | Kind::Histogram { .. }
        | Kind::DateHistogram { .. }
        | Kind::Filters { .. }
        | Kind::Filter { .. }
        | Kind::Missing { .. }
        | Kind::Global
        | Kind::Nested { .. }
        | Kind::ReverseNested { .. }
        | Kind::Sum { .. }
        | Kind::Min { .. }
        | Kind::Max { .. }
        | Kind::Avg { .. }
        | Kind::ValueCount { .. } => Code::default(),
    }
}

// Whether an item comes before a key of this code: only among items of the same code is a key read.
fn is_coded_before<T: HasCode, K: Sought>(
    sources: &List<CompositeSource>,
    item: &T,
    key: &K,
    code: Code,
) -> bool {
    match item.code().cmp(&code) {
        Ordering::Less => true,
        Ordering::Equal => is_before(sources, item.key(), key),
        Ordering::Greater => false,
    }
}

fn ends_coded_before<T: HasCode, K: Sought>(
    sources: &List<CompositeSource>,
    items: &[T],
    key: &K,
    code: Code,
) -> bool {
    match items.last() {
        Some(last) => is_coded_before(sources, last, key, code),
        None => true,
    }
}

// The run in which a key stands or would stand: the one that the codes of the last items tell, unless it ends before the key.
fn guess_run<T: HasCode, K: Sought>(
    sources: &List<CompositeSource>,
    runs: &[Vec<T>],
    lasts: &Lasts,
    key: &K,
    code: Code,
) -> usize {
    let run = lasts.run_of(code);
    match runs.get(run) {
        Some(items) if !ends_coded_before(sources, items.as_slice(), key, code) => run,
        _ => runs.partition_point(|run| ends_coded_before(sources, run.as_slice(), key, code)),
    }
}

// Where the codes say that a key stands.
fn guess_spot<T: HasCode, K: Sought>(
    sources: &List<CompositeSource>,
    runs: &[Vec<T>],
    lasts: &Lasts,
    key: &K,
    code: Code,
) -> Spot {
    let run = guess_run(sources, runs, lasts, key, code);
    let at = match runs.get(run) {
        Some(run) => run
            .as_slice()
            .partition_point(|item| is_coded_before(sources, item, key, code)),
        None => 0,
    };
    Spot { run, at }
}

// What the item at a spot tells of a key: that it has the key, or that one with the key would stand between it and its neighbour
// before it in the run; none where it tells neither.
fn told_at<T: HasKey, K: Sought>(
    sources: &List<CompositeSource>,
    runs: &[Vec<T>],
    key: &K,
    spot: Spot,
) -> Option<Result<Spot, Spot>>
    requires order { IsInOrder T.key_of sources.now (in_runs runs.now) }
    requires parts { IsTrue (list_all (λ x. is_composite_of (length sources.now) (T.key_of x)) (in_runs runs.now)) }
    requires key_parts { IsTrue (is_composite_of (length sources.now) (K.sought key.now)) }
    ensures found { IfSome result (λ told. IfOk told (IsSpotOf T.key_of runs.now (K.sought key.now))) }
    ensures absent { IfSome result (λ told. IfErr told (IsGapFor T.key_of sources.now runs.now (K.sought key.now))) }
{
    if spot.run >= runs.len() {
        return None;
    }
    let run = &runs[spot.run];
    if spot.at >= run.len() {
        return None;
    }
    match key.compare(sources, run[spot.at].key()) {
        Ordering::Equal => Some(Ok(spot)),
        Ordering::Greater if spot.at > 0 && is_before(sources, run[spot.at - 1].key(), key) => {
            Some(Err(spot))
        }
        _ => None,
    }
}

/// The same as `find_spot`, with the key's code and those of the last items. Where the codes tell the spot it takes one
/// comparison of keys or two, and else the binary search by keys.
pub fn find_spot_by<T: HasCode, K: Sought>(
    sources: &List<CompositeSource>,
    runs: &[Vec<T>],
    lasts: &Lasts,
    key: &K,
    code: Code,
) -> Result<Spot, Spot>
    requires order { IsInOrder T.key_of sources.now (in_runs runs.now) }
    requires filled { AreFilled runs.now }
    requires parts { IsTrue (list_all (λ x. is_composite_of (length sources.now) (T.key_of x)) (in_runs runs.now)) }
    requires key_parts { IsTrue (is_composite_of (length sources.now) (K.sought key.now)) }
    ensures found { IfOk result (IsSpotOf T.key_of runs.now (K.sought key.now)) }
    ensures absent { IfErr result (IsGapFor T.key_of sources.now runs.now (K.sought key.now)) }
{
    let guess = guess_spot(sources, runs, lasts, key, code);
    match told_at(sources, runs, key, guess) {
        Some(told) => told,
        None => find_spot(sources, runs, key),
    }
}
