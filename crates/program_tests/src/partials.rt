//! Two shards that each return one term of three, of five and of four documents.
ghost use Rattle.std.specs.Prelude.{◌≡◌, ◌<◌, ◌^◌, IfOk, length};
ghost use Rattle.agg_evaluation.specs.Cost.{cost as cost_of};

use agg_model::{Agg, Bucket, Key, Kind, List, Node, Partial, Query, Search, Text};
use partial_result::{cost, empty, merge};
use std::alloc::{AllocError, Global};
use std::test::Fail;

/// A search with one terms aggregation.
fn search(alloc: Global) -> Result<Search, AllocError> {
    let mut aggs = List::new(alloc);
    aggs.push(Agg {
        name: Text::of(alloc, "t")?,
        kind: Kind::Terms {
            field: 2,
            size: 1,
            shard_size: 1,
            min_doc_count: 1,
            order: List::new(alloc),
            include: None,
            exclude: List::new(alloc),
            missing: None,
            show_error: true,
        },
        children: List::new(alloc),
    })?;
    Ok(Search {
        query: Query::All,
        aggs,
        body_bytes: 95,
        partial: false,
        pipes: List::new(alloc),
    })
}

/// What a shard answers that returns this term of three documents and leaves `cut` others out.
#[tactic(auto, using(partial_result::proofs::CostLevels::cost_levels))]
fn returned(alloc: Global, word: &str, cut: u32) -> Result<Partial, AllocError>
    requires { length word.now < 100 }
    ensures { IfOk result (λ p. cost_of p < 2 ^ 64) }
{
    let mut buckets = List::new(alloc);
    buckets.push(Bucket {
        key: Key::Word(Text::of(alloc, word)?),
        count: 3,
        covered: 3,
        children: List::new(alloc),
    })?;
    let mut nodes = List::new(alloc);
    nodes.push(Node::Keyed {
        buckets,
        error: 3,
        full: 1,
        cut: u64::from(cut),
    })?;
    Ok(Partial {
        hits: 3 + u64::from(cut),
        nodes,
    })
}

/// Whether a bucket is that of a term of three documents, one shard of which returned it.
fn is_term(bucket: &Bucket, word: &str) -> bool {
    let is_key = match &bucket.key {
        Key::Word(text) => text.as_str() == word,
        _ => false,
    };
    is_key && bucket.count == 3 && bucket.covered == 3
}

/// Whether the node has these terms, and these sums of errors, of shards that are full, and of counts that were cut.
fn has_terms(node: &Node, words: &[&str], sums: [u64; 3]) -> bool {
    match node {
        Node::Keyed {
            buckets,
            error,
            full,
            cut,
        } => {
            buckets.len() == words.len()
                && buckets
                    .as_slice()
                    .iter()
                    .zip(words)
                    .all(|(bucket, word)| is_term(bucket, word))
                && [*error, u64::from(*full), *cut] == sums
        }
        _ => false,
    }
}

/// Whether the result has these hits, and one node with these terms and sums.
fn is_result(partial: &Partial, hits: u64, words: &[&str], sums: [u64; 3]) -> bool {
    let is_node = match partial.nodes.as_slice() {
        [node] => has_terms(node, words, sums),
        _ => false,
    };
    is_node && partial.hits == hits
}

/// The result over no shard.
fn nothing(alloc: Global) -> Result<Partial, AllocError> {
    empty(alloc, &search(alloc)?)
}

/// The union of two results. It promises nothing, since a test only looks at it.
fn united(alloc: Global, first: Partial, second: Partial) -> Result<Partial, AllocError> {
    merge(alloc, first, second)
}

#[test]
fn two_shards_cut_to_one_term_are_united(rt: HostRuntime) -> Result<(), Fail> {
    let alloc = rt.alloc();
    let merged = united(alloc, returned(alloc, "a", 2)?, returned(alloc, "b", 1)?)?;
    assert!(rt; is_result(&merged, 9, &["a", "b"], [6, 2, 3]));
    Ok(())
}

#[test]
fn the_empty_result_is_neutral(rt: HostRuntime) -> Result<(), Fail> {
    let alloc = rt.alloc();
    let nothing = nothing(alloc)?;
    assert!(rt; is_result(&nothing, 0, &[], [0, 0, 0]));
    let merged = united(alloc, nothing, returned(alloc, "a", 2)?)?;
    assert!(rt; is_result(&merged, 5, &["a"], [3, 1, 2]));
    Ok(())
}

#[test]
fn a_node_costs_512_and_a_term_of_one_byte_129_more(rt: HostRuntime) -> Result<(), Fail> {
    assert_eq!(rt; cost(&returned(rt.alloc(), "a", 2)?), 641);
    Ok(())
}
