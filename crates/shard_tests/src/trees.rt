//! The tree of a document, as a shard answers it.
ghost use Rattle.std.specs.Prelude.{◌≡◌, ◌∷◌, [], IfOk};
ghost use Rattle.shard_tests.specs.Example.{example_agg, example_values, example_words};

use crate::sample::sample_shard;
use agg_model::{Agg, Bucket, Key, Kind, List, Node, Order, OrderBy, Text};
use growing_tree::{TableRoom, begin, finish, gather, prepare};
use std::alloc::{AllocError, Global};
use std::test::Fail;

// What a tree of one word costs more, in bytes: a bucket of 128, its key, and a metric of 512.
const ONE_LETTER: u64 = 128 + 1 + 512;

const TWO_LETTERS: u64 = 128 + 2 + 512;

fn only(alloc: Global, agg: Agg) -> Result<List<Agg>, AllocError>
    ensures { IfOk result (λ aggs. aggs ≡ agg ∷ []) }
{
    let mut aggs = List::new(alloc);
    aggs.push(agg)?;
    Ok(aggs)
}

fn values(alloc: Global) -> Result<Agg, AllocError>
    ensures { IfOk result (λ agg. agg ≡ example_values) }
{
    Ok(Agg {
        name: Text::of(alloc, "values")?,
        kind: Kind::ValueCount {
            field: 0,
            missing: None,
        },
        children: List::new(alloc),
    })
}

// The most frequent word alone.
fn words(alloc: Global) -> Result<Agg, AllocError>
    ensures { IfOk result (λ agg. agg ≡ example_words) }
{
    let mut order = List::new(alloc);
    order.push(Order {
        by: OrderBy::Count,
        descending: true,
    })?;
    Ok(Agg {
        name: Text::of(alloc, "words")?,
        kind: Kind::Terms {
            field: 0,
            size: 1,
            shard_size: 1,
            min_doc_count: 1,
            order,
            include: None,
            exclude: List::new(alloc),
            missing: None,
            show_error: true,
        },
        children: only(alloc, values(alloc)?)?,
    })
}

fn items(alloc: Global) -> Result<Agg, AllocError>
    ensures { IfOk result (λ agg. agg ≡ example_agg) }
{
    Ok(Agg {
        name: Text::of(alloc, "items")?,
        kind: Kind::Nested { context: 1 },
        children: only(alloc, words(alloc)?)?,
    })
}

fn is_number(node: &Node, count: u64) -> bool {
    match node {
        Node::Number(metric) => metric.count == count,
        _ => false,
    }
}

// The word `k` of two rows and two values.
fn is_word(bucket: &Bucket) -> bool {
    let is_key = match &bucket.key {
        Key::Word(text) => text.as_str() == "k",
        _ => false,
    };
    let is_counted = match bucket.children.as_slice() {
        [values] => is_number(values, 2),
        _ => false,
    };
    is_key && is_counted && bucket.count == 2 && bucket.covered == 2
}

// That word alone, where one row was cut.
fn are_words(node: &Node) -> bool {
    match node {
        Node::Keyed {
            buckets,
            error,
            full,
            cut,
        } => {
            let is_only = match buckets.as_slice() {
                [bucket] => is_word(bucket),
                _ => false,
            };
            is_only && *error == 2 && *full == 1 && *cut == 1
        }
        _ => false,
    }
}

// One bucket of three rows, and the words below it.
fn are_items(node: &Node) -> bool {
    match node {
        Node::Fixed { buckets } => match buckets.as_slice() {
            [bucket] => match bucket.children.as_slice() {
                [words] => bucket.count == 3 && are_words(words),
                _ => false,
            },
            _ => false,
        },
        _ => false,
    }
}

#[test]
fn a_document_becomes_the_tree_of_its_shard(rt: HostRuntime) -> Result<(), Fail> {
    let alloc = rt.alloc();
    let shard = sample_shard(alloc)?;
    let agg = items(alloc)?;
    let ready = prepare(alloc, &shard, &agg, &mut TableRoom::new())?;
    let mut tree = begin(alloc, &agg, &ready)?;
    let mut rows = List::new(alloc);
    rows.push(0)?;
    let mut spare = Vec::new(alloc);
    assert!(rt; shard.len() > 0);
    let added = gather(
        alloc,
        &agg,
        &ready,
        &shard,
        rows.as_slice(),
        &mut spare,
        &mut tree,
    )?;
    assert_eq!(rt; added, ONE_LETTER + TWO_LETTERS);
    let node = finish(alloc, &agg, &ready, &shard, tree)?;
    assert!(rt; are_items(&node));
    Ok(())
}
