//! Counters of words, raised row by row.
ghost use Rattle.std.specs.Prelude.{◌≡◌, Some, length, slice_get};
ghost use Rattle.agg_model.specs.declared.mapping.FieldKind.TheVariants.{Keyword};
ghost use Rattle.shard_columns.specs.Built.{IsShard};
ghost use Rattle.shard_columns.specs.Dictionary.{words_of};

use crate::sample::sample_shard;
use agg_model::{Bucket, Key, Node};
use shard_columns::Shard;
use std::alloc::{AllocError, Global};
use std::test::Fail;
use terms_agg::Counts;

// Counts each row of the shard, and lists what the rows cost.
fn costs(alloc: Global, counts: &mut Counts, shard: &Shard) -> Result<Vec<u64>, AllocError>
    requires keyword { slice_get shard.now.kinds 0 ≡ Some Keyword }
    requires counters { length counts.old ≡ length (words_of 0 shard.now.rows) }
    ensures { length counts.new ≡ length counts.old }
{
    let mut costs = Vec::new(alloc);
    for row in 0..shard.len() {
        costs.push(counts.count(shard, 0, row)?)?;
    }
    Ok(costs)
}

// Counts each row of the shard by its words, and gives what the rows cost, and the node.
fn counted(alloc: Global, shard: &Shard) -> Result<(Vec<u64>, Node), AllocError>
    requires built { IsShard shard.now }
    requires keyword { slice_get shard.now.kinds 0 ≡ Some Keyword }
{
    let mut counts = Counts::new(alloc, shard.words(0))?;
    let costs = costs(alloc, &mut counts, shard)?;
    Ok((costs, counts.into_node(alloc, shard, 0)?))
}

fn is_word(bucket: &Bucket, word: &str, count: u64) -> bool {
    let is_key = match &bucket.key {
        Key::Word(text) => text.as_str() == word,
        _ => false,
    };
    is_key && bucket.count == count && bucket.covered == 0 && bucket.children.is_empty()
}

// The word `k` of two rows and `mm` of one, of which nothing was cut.
fn are_words(node: &Node) -> bool {
    match node {
        Node::Keyed {
            buckets,
            error: 0,
            full: 0,
            cut: 0,
        } => match buckets.as_slice() {
            [k, mm] => is_word(k, "k", 2) && is_word(mm, "mm", 1),
            _ => false,
        },
        _ => false,
    }
}

#[test]
fn a_word_costs_a_bucket_at_its_first_row(rt: HostRuntime) -> Result<(), Fail> {
    let alloc = rt.alloc();
    let shard = sample_shard(alloc)?;
    let (costs, node) = counted(alloc, &shard)?;
    // The root has no word, and its items have `k`, `mm` and `k`.
    assert_eq!(rt; costs.as_slice(), [0, 128 + 1, 128 + 2, 0].as_slice());
    assert!(rt; are_words(&node));
    Ok(())
}
