//! How a search of a pool is to end.
use crate::parts::{Counts, counts_of_all};
use agg_model::{Failure, Tripped, Which};
use shard_pool::SearchEnd;
use std::alloc::{AllocError, Global};

/// How a search is to end.
#[derive(Clone, Copy)]
pub(crate) enum Wanted {
    /// With these counts of all shards.
    Whole(Counts),
    /// By a refusal at this total, in bytes.
    Stopped(u64),
    /// Without these shards, each of which was refused at this total, and with these counts of the others.
    Without(&'static [u32], u64, Counts),
}

/// Whether these shards, and no others, were refused as told.
fn are_left_out(failures: &[Failure], shards: &[u32], tripped: Tripped) -> bool {
    failures.len() == shards.len()
        && failures.iter().zip(shards).all(|(failure, shard)| failure.shard == *shard
            && failure.tripped == tripped)
}

fn refusal_at(total: u64, limit: u64) -> Tripped {
    Tripped {
        which: Which::Request,
        wanted: total,
        limit,
    }
}

/// Whether a search that tells these counts, and what was refused, ended as wanted.
fn is_wanted(
    counts: Option<Counts>,
    refused: Option<Tripped>,
    failures: &[Failure],
    limit: u64,
    wanted: Wanted,
) -> bool {
    match wanted {
        Wanted::Whole(all) => counts == Some(all) && refused.is_none() && failures.is_empty(),
        Wanted::Stopped(total) => {
            counts.is_none() && refused == Some(refusal_at(total, limit)) && failures.is_empty()
        }
        Wanted::Without(shards, total, others) => {
            counts == Some(others)
                && refused.is_none()
                && are_left_out(failures, shards, refusal_at(total, limit))
        }
    }
}

/// Whether a search ended so, where the request breaker has this limit. Its parts are merged to one.
pub(crate) fn has_ended(
    alloc: Global,
    end: SearchEnd,
    limit: u64,
    wanted: Wanted,
) -> Result<bool, AllocError> {
    let SearchEnd {
        parts,
        refused,
        memory,
        failures,
    } = end;
    let counts = counts_of_all(alloc, parts)?;
    Ok(!memory && is_wanted(counts, refused, failures.as_slice(), limit, wanted))
}
