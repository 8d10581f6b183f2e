//! The buckets of a level among which are all that a shard keeps. They are chosen by the numbers of their rows alone, before
//! anything is made of a bucket.
ghost use Rattle.std.specs.Prelude.{◌≡◌, IfOk, map, sum_by};
ghost use Rattle.growing_tree.specs.Frequent.{IsChosen};
ghost use Rattle.growing_tree.specs.Measures.{measures_of};
ghost use Rattle.growing_tree.specs.Trees.{IsIndexed, coded_buckets, counter_buckets, measured_buckets};

use crate::coded::{Coded, with_codes};
use crate::counted::with_counters;
use crate::frequent::least_count;
use crate::measured::Measured;
use crate::sums::sum;
use crate::tree::{Growing, Keyed};
use crate::with_trees::with_trees;
use agg_model::Kind;
use std::alloc::{AllocError, Global};
use terms_agg::Counts;

/// Buckets of a level, with the codes that stand for their keys.
#[derive(Drop)]
pub(crate) struct Chosen {
    /// How many rows all buckets of the level have together.
    pub(crate) total: u64,
    pub(crate) coded: Vec<Coded>,
}

// Counts that together have more than 64 bits are answered as want of memory.
fn total_count(counts: &[u64]) -> Result<u64, AllocError>
    ensures { IfOk result (λ n. n ≡ sum_by (λ c. c) counts.now) }
{
    let mut total = 0;
    for count in counts {
        total = sum(total, *count)?;
    }
    Ok(total)
}

// How many rows each bucket has.
fn counts_of(alloc: Global, buckets: &[Growing]) -> Result<Vec<u64>, AllocError>
    ensures { IfOk result (λ counts. counts.items ≡ map (λ g. g.count) buckets.now) }
{
    let mut counts = Vec::with_capacity(alloc, buckets.len())?;
    for bucket in buckets {
        counts.push(bucket.count)?;
    }
    Ok(counts)
}

/// Those of the buckets of codes among which are all that a shard keeps.
pub(crate) fn choose(alloc: Global, kind: &Kind, keyed: Keyed) -> Result<Chosen, AllocError>
    requires aligned { IsIndexed keyed.places keyed.buckets.items }
    ensures { IfOk result (IsChosen kind.now (coded_buckets keyed.places keyed.buckets.items)) }
{
    let counts = counts_of(alloc, keyed.buckets.as_slice())?;
    let least = least_count(kind, counts.as_slice());
    Ok(Chosen {
        total: total_count(counts.as_slice())?,
        coded: with_codes(alloc, keyed, least)?,
    })
}

/// The same of buckets below which there are metrics alone.
pub(crate) fn choose_measured(
    alloc: Global,
    kind: &Kind,
    measured: Measured,
) -> Result<Chosen, AllocError>
    requires aligned { IsIndexed measured.places measured.counts.items }
    ensures { IfOk result (IsChosen kind.now (measured_buckets measured.places (measures_of measured))) }
{
    let counts = measured.counts.as_slice();
    let least = least_count(kind, counts);
    Ok(Chosen {
        total: total_count(counts)?,
        coded: with_trees(alloc, &measured, least)?,
    })
}

/// The same of buckets whose rows are counted alone.
pub(crate) fn choose_counted(
    alloc: Global,
    kind: &Kind,
    counts: &Counts,
) -> Result<Chosen, AllocError>
    ensures { IfOk result (IsChosen kind.now (counter_buckets 0 counts.now)) }
{
    let counters = counts.counters();
    let least = least_count(kind, counters);
    Ok(Chosen {
        total: total_count(counters)?,
        coded: with_counters(alloc, counters, least)?,
    })
}
