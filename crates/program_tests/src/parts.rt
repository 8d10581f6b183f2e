//! What parts tell of the words `a` and `b`.
use agg_model::{Bucket, Key, List, Node, Partial};
use partial_result::merge;
use std::alloc::{AllocError, Global};

/// What a terms aggregation costs in bytes, and a bucket of a word of one byte.
const TERMS: u64 = 512;

const BUCKET: u64 = 128 + 1;

/// The hits of a part, and the counts of the buckets `a` and `b`.
pub(crate) type Counts = [u64; 3];

/// The count of a word; 0 where it has no bucket.
fn count_of(buckets: &[Bucket], word: &str) -> u64 {
    for bucket in buckets {
        if let Key::Word(text) = &bucket.key
            && text.as_str() == word
        {
            return bucket.count;
        }
    }
    0
}

/// The buckets of the only aggregation; none where there is no aggregation.
fn buckets_of(part: &Partial) -> &[Bucket] {
    match part.nodes.as_slice() {
        [Node::Keyed { buckets, .. }] => buckets.as_slice(),
        _ => &[],
    }
}

pub(crate) fn counts_of(part: &Partial) -> Counts {
    let buckets = buckets_of(part);
    [part.hits, count_of(buckets, "a"), count_of(buckets, "b")]
}

/// What the parts of a terms aggregation cost together, in bytes, where each word has one byte.
pub(crate) fn cost_of(parts: &[Partial]) -> u64 {
    let mut bytes = 0u64;
    for part in parts {
        let buckets = buckets_of(part).len() as u64;
        bytes = bytes
            .saturating_add(TERMS)
            .saturating_add(BUCKET.saturating_mul(buckets));
    }
    bytes
}

/// The parts as one; none where there is no part.
fn merged(alloc: Global, parts: List<Partial>) -> Result<Option<Partial>, AllocError> {
    let mut whole = None;
    for part in parts.into_vec() {
        whole = Some(match whole {
            Some(before) => merge(alloc, before, part)?,
            None => part,
        });
    }
    Ok(whole)
}

/// What the parts tell as one; none where there is no part.
pub(crate) fn counts_of_all(
    alloc: Global,
    parts: List<Partial>,
) -> Result<Option<Counts>, AllocError> {
    match merged(alloc, parts)? {
        Some(whole) => Ok(Some(counts_of(&whole))),
        None => Ok(None),
    }
}
