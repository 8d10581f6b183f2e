//! Items in the order of a composite's sources, in runs of neighbours, so that one that enters moves few others.
ghost use Rattle.std.specs.Prelude.{◌≡◌, ◌<◌, ◌+◌, ◌++◌, [], ◌∷◌, IfOk, IfErr, OnOk, OnErr, IsTrue, true};
ghost use Rattle.std.specs.Prelude.{is_some, nat_le, option_copied, option_map, option_to_list, length, take, drop, None};
ghost use Rattle.std.specs.List.{insert, last_or, list_all};
ghost use Rattle.agg_evaluation.specs.CompositeKeys.{is_composite_of};
ghost use Rattle.composite_agg.specs.InOrder.{IsInOrder, all_before, all_behind, is_kept_out};
ghost use Rattle.composite_page.specs.Pages.{is_beyond_any};
ghost use Rattle.composite_agg.specs.Runs.{AreFilled, IsGapFor, IsSpotOf, IsWithin, in_runs, place_in};

use crate::keyed::HasKey;
use crate::places::{ends_before, find, is_before};
use crate::sought::Sought;
use agg_model::{CompositeSource, Key, List};
use std::alloc::{AllocError, Global};

/// A run of so many items is parted into two.
const LONGEST: usize = 64;

/// Where an item stands, or would stand: a run, and a place in it.
#[derive(Clone, Copy)]
pub struct Spot {
    pub run: usize,
    pub at: usize,
}

/// The key of the last item, if there is any.
pub fn last_key<T: HasKey>(runs: &[Vec<T>]) -> Option<&Key>
    requires filled { AreFilled runs.now }
    ensures { option_copied result ≡ option_map T.key_of (last_or None (in_runs runs.now)) }
{
    match runs.last() {
        Some(run) => last_key_of(run.as_slice()),
        None => None,
    }
}

fn last_key_of<T: HasKey>(items: &[T]) -> Option<&Key>
    ensures { option_copied result ≡ option_map T.key_of (last_or None items.now) }
{
    match items.last() {
        Some(last) => Some(last.key()),
        None => None,
    }
}

// Whether a key comes after all items, by one comparison with the last.
fn comes_last<T: HasKey, K: Sought>(
    sources: &List<CompositeSource>,
    runs: &[Vec<T>],
    key: &K,
) -> bool
    requires order { IsInOrder T.key_of sources.now (in_runs runs.now) }
    requires filled { AreFilled runs.now }
    ensures { result ≡ all_before T.key_of sources.now (K.sought key.now) (in_runs runs.now) }
{
    match runs.last() {
        Some(run) => ends_before(sources, run.as_slice(), key),
        None => true,
    }
}

/// Whether a key has no place in a page of at most `size` items, of which `held` is the number: it does not come after `after`,
/// or it comes after all of a full page. Most keys do the latter, so that is tried first, by one comparison with the last.
pub fn is_outside<T: HasKey, K: Sought>(
    sources: &List<CompositeSource>,
    size: u32,
    after: &Option<Key>,
    held: usize,
    runs: &[Vec<T>],
    key: &K,
) -> bool
    requires order { IsInOrder T.key_of sources.now (in_runs runs.now) }
    requires filled { AreFilled runs.now }
    requires held { held ≡ length (in_runs runs.now) }
    ensures { result ≡ is_kept_out T.key_of sources.now size after.now (in_runs runs.now) (K.sought key.now) }
{
    (held >= size as usize && comes_last(sources, runs, key)) || !is_beyond(sources, after, key)
}

// Whether the key that is looked for comes after another one; none is given where all are after it.
fn is_beyond<K: Sought>(sources: &List<CompositeSource>, after: &Option<Key>, key: &K) -> bool
    ensures { result ≡ is_beyond_any sources.now after.now (K.sought key.now) }
{
    match after {
        Some(after) => is_before(sources, after, key),
        None => true,
    }
}

// The run to which a key belongs, by binary search over the last items.
fn run_of<T: HasKey, K: Sought>(sources: &List<CompositeSource>, runs: &[Vec<T>], key: &K) -> usize
    requires order { IsInOrder T.key_of sources.now (in_runs runs.now) }
    requires filled { AreFilled runs.now }
    requires some { 0 < length runs.now }
    ensures within { result < length runs.now }
    ensures before { IsTrue (all_before T.key_of sources.now (K.sought key.now) (in_runs (take result runs.now))) }
    ensures behind { IsTrue (all_behind T.key_of sources.now (K.sought key.now) (in_runs (drop (result + 1) runs.now))) }
{
    let before = runs.partition_point(|run| ends_before(sources, run.as_slice(), key));
    if before < runs.len() {
        before
    } else {
        runs.len() - 1
    }
}

/// The spot of the item that has the key, by binary search, or else where one with the key would stand.
pub fn find_spot<T: HasKey, K: Sought>(
    sources: &List<CompositeSource>,
    runs: &[Vec<T>],
    key: &K,
) -> Result<Spot, Spot>
    requires order { IsInOrder T.key_of sources.now (in_runs runs.now) }
    requires filled { AreFilled runs.now }
    requires parts { IsTrue (list_all (λ x. is_composite_of (length sources.now) (T.key_of x)) (in_runs runs.now)) }
    requires key_parts { IsTrue (is_composite_of (length sources.now) (K.sought key.now)) }
    ensures found { IfOk result (IsSpotOf T.key_of runs.now (K.sought key.now)) }
    ensures absent { IfErr result (IsGapFor T.key_of sources.now runs.now (K.sought key.now)) }
{
    if runs.is_empty() {
        return Err(Spot { run: 0, at: 0 });
    }
    let run = run_of(sources, runs, key);
    match find(sources, runs[run].as_slice(), key) {
        Ok(at) => Ok(Spot { run, at }),
        Err(at) => Err(Spot { run, at }),
    }
}

/// Puts an item at a spot of a page of at most `size` items, of which `held` is the number; the last one leaves a full page.
/// After want of memory they are as before.
pub fn enter<T: Drop>(
    size: u32,
    held: &mut usize,
    runs: &mut Vec<Vec<T>>,
    spot: Spot,
    item: T,
) -> Result<Option<T>, AllocError>
    requires spot { 0 < length runs.old.items → IsWithin runs.old.items spot.run spot.at }
    requires filled { AreFilled runs.old.items }
    requires held { held.old ≡ length (in_runs runs.old.items) }
    ensures items { IfOk result (λ left. insert (in_runs runs.old.items) (place_in runs.old.items spot.run spot.at) item
        ≡ in_runs runs.new.items ++ option_to_list left) }
    ensures full { IfOk result (λ left. is_some left ≡ nat_le size (length (in_runs runs.old.items))) }
    ensures err { OnErr result (in_runs runs.new.items ≡ in_runs runs.old.items) }
    ensures filled { AreFilled runs.new.items }
    ensures held { held.new ≡ length (in_runs runs.new.items) }
{
    put_at(runs, spot, item)?;
    if *held >= size as usize {
        Ok(take_last(runs))
    } else {
        *held += 1;
        Ok(None)
    }
}

// Puts an item at a spot, and parts a run that becomes long. After want of memory the items are as before.
fn put_at<T: Drop>(runs: &mut Vec<Vec<T>>, spot: Spot, item: T) -> Result<(), AllocError>
    requires spot { 0 < length runs.old.items → IsWithin runs.old.items spot.run spot.at }
    requires filled { AreFilled runs.old.items }
    ensures items { OnOk result (in_runs runs.new.items
        ≡ insert (in_runs runs.old.items) (place_in runs.old.items spot.run spot.at) item) }
    ensures err { OnErr result (in_runs runs.new.items ≡ in_runs runs.old.items) }
    ensures filled { AreFilled runs.new.items }
{
    if runs.is_empty() {
        return put_first(runs, item);
    }
    runs[spot.run].insert(spot.at, item)?;
    part_long(runs, spot.run);
    Ok(())
}

// Makes the first run, of one item. After want of memory there is none.
fn put_first<T: Drop>(runs: &mut Vec<Vec<T>>, item: T) -> Result<(), AllocError>
    requires { runs.old.items ≡ [] }
    ensures items { OnOk result (in_runs runs.new.items ≡ item ∷ []) }
    ensures err { OnErr result (runs.new.items ≡ []) }
    ensures filled { AreFilled runs.new.items }
{
    let mut run = Vec::new(*runs.allocator());
    run.push(item)?;
    runs.push(run)?;
    Ok(())
}

// Parts a run into two where it is long. Where memory is wanting it stays whole.
fn part_long<T: Drop>(runs: &mut Vec<Vec<T>>, run: usize)
    requires within { run < length runs.old.items }
    requires filled { AreFilled runs.old.items }
    ensures items { in_runs runs.new.items ≡ in_runs runs.old.items }
    ensures filled { AreFilled runs.new.items }
{
    if runs[run].len() < LONGEST || runs.reserve(1).is_err() {
        return;
    }
    if let Ok(tail) = take_half(&mut runs[run]) {
        // There is room for one more.
        let _ = runs.insert(run + 1, tail);
    }
}

// Takes the second half out of a run. After want of memory the run is as before.
fn take_half<T: Drop>(run: &mut Vec<T>) -> Result<Vec<T>, AllocError>
    requires { 1 < length run.old.items }
    ensures parts { IfOk result (λ tail. run.old.items ≡ run.new.items ++ tail.items) }
    ensures filled { IfOk result (λ tail. (0 < length run.new.items) × (0 < length tail.items)) }
    ensures err { OnErr result (run.new.items ≡ run.old.items) }
{
    let half = run.len() / 2;
    let mut tail = Vec::with_capacity(*run.allocator(), half)?;
    for _moved in 0..half {
        if let Some(item) = run.pop() {
            // There is room for it.
            let _ = tail.push(item);
        }
    }
    tail.reverse();
    Ok(tail)
}

// Takes the last item out.
fn take_last<T: Drop>(runs: &mut Vec<Vec<T>>) -> Option<T>
    requires filled { AreFilled runs.old.items }
    ensures items { in_runs runs.old.items ≡ in_runs runs.new.items ++ option_to_list result }
    ensures some { 0 < length runs.old.items → is_some result ≡ true }
    ensures filled { AreFilled runs.new.items }
{
    let last = runs.len().checked_sub(1)?;
    let left = runs[last].pop();
    if runs[last].is_empty() {
        runs.pop();
    }
    left
}

/// All items in one list.
pub fn join<T: Drop>(alloc: Global, runs: Vec<Vec<T>>) -> Result<Vec<T>, AllocError>
    ensures { IfOk result (λ items. items.items ≡ in_runs runs.items) }
{
    let mut items = Vec::new(alloc);
    for mut run in runs {
        items.append(&mut run)?;
    }
    Ok(items)
}
