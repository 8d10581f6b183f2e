//! Final answers of terms whose shards returned one each.
ghost use Rattle.std.specs.Prelude.{◌≡◌, ◌+◌, ◌∷◌, [], true, IfOk, IsTrue, codes};
ghost use Rattle.agg_model.specs.declared.key.Key.TheVariants.{Word};
ghost use Rattle.agg_model.specs.declared.aggregation.Agg.{out-Agg};
ghost use Rattle.agg_model.specs.declared.partial.Node.TheVariants.{Keyed};
ghost use Rattle.agg_evaluation.specs.Finishable.{can_finish, is_finishable};
ghost use Rattle.agg_evaluation.specs.SearchFits.{IsMade, agg_fits};
ghost use Rattle.program_tests.specs.SampleMapping.{sample_mapping};
ghost use Rattle.program_tests.specs.SampleTerms.{IsFirstByCount, returned_bucket};

use agg_model::{
    Agg, Answer, Bucket, BucketAnswer, Key, Kind, List, Node, Order, OrderBy, Partial, Query,
    Search, Text,
};
use final_reduce::{FinalFault, finish};
use std::alloc::{AllocError, Global};
use std::test::Fail;

/// A search and the whole of its shard answers.
#[derive(Drop)]
pub(crate) struct Sample {
    pub(crate) search: Search,
    pub(crate) whole: Partial,
}

pub(crate) fn one<T: Drop>(alloc: Global, item: T) -> Result<List<T>, AllocError>
    ensures { IfOk result (λ items. items ≡ item ∷ []) }
{
    let mut items = List::new(alloc);
    items.push(item)?;
    Ok(items)
}

/// A search for one aggregation, of which the whole has this node.
pub(crate) fn of_one(alloc: Global, agg: Agg, node: Node) -> Result<Sample, AllocError>
    requires made { IsTrue (agg_fits sample_mapping true 0 agg) }
    requires node { IsTrue (is_finishable agg node) }
    ensures made { IfOk result (λ sample. IsMade sample.search) }
    ensures whole { IfOk result (λ sample. IsTrue (can_finish sample.search sample.whole)) }
{
    Ok(Sample {
        search: Search {
            query: Query::All,
            aggs: one(alloc, agg)?,
            body_bytes: 0,
            partial: false,
            pipes: List::new(alloc),
        },
        whole: Partial {
            hits: 9,
            nodes: one(alloc, node)?,
        },
    })
}

fn bucket(alloc: Global, word: &str, count: u32, covered: u32) -> Result<Bucket, AllocError>
    ensures { IfOk result (λ b. b ≡ returned_bucket word.now count covered) }
{
    Ok(Bucket {
        key: Key::Word(Text::of(alloc, word)?),
        count: u64::from(count),
        covered: u64::from(covered),
        children: List::new(alloc),
    })
}

/// The terms `a` and `b`, of which each shard returned one as its only one.
fn both(
    alloc: Global,
    a: u32,
    a_covered: u32,
    b: u32,
    b_covered: u32,
    cut: u32,
) -> Result<Node, AllocError>
    ensures { IfOk result (λ node. node ≡ Keyed (returned_bucket (codes "a") a a_covered ∷ returned_bucket (codes "b") b b_covered ∷ []) (a_covered + b_covered) 2 cut) }
{
    let mut buckets = List::new(alloc);
    buckets.push(bucket(alloc, "a", a, a_covered)?)?;
    buckets.push(bucket(alloc, "b", b, b_covered)?)?;
    Ok(Node::Keyed {
        buckets,
        error: u64::from(a_covered) + u64::from(b_covered),
        full: 2,
        cut: u64::from(cut),
    })
}

fn first_term(alloc: Global, descending: bool) -> Result<Agg, AllocError>
    ensures { IfOk result (λ agg. IsFirstByCount descending (out-Agg agg)) }
{
    let order = Order {
        by: OrderBy::Count,
        descending,
    };
    Ok(Agg {
        name: Text::of(alloc, "t")?,
        kind: Kind::Terms {
            field: 0,
            size: 1,
            shard_size: 1,
            min_doc_count: 1,
            order: one(alloc, order)?,
            include: None,
            exclude: List::new(alloc),
            missing: None,
            show_error: true,
        },
        children: List::new(alloc),
    })
}

fn sample_of(
    alloc: Global,
    descending: bool,
    a: u32,
    a_covered: u32,
    b: u32,
    b_covered: u32,
    cut: u32,
) -> Result<Sample, AllocError>
    ensures made { IfOk result (λ sample. IsMade sample.search) }
    ensures whole { IfOk result (λ sample. IsTrue (can_finish sample.search sample.whole)) }
{
    let agg = first_term(alloc, descending)?;
    let node = both(alloc, a, a_covered, b, b_covered, cut)?;
    of_one(alloc, agg, node)
}

/// The final answer, of which it promises nothing, since a test only looks at it.
pub(crate) fn finished(
    alloc: Global,
    sample: Sample,
    max_buckets: u64,
) -> Result<Answer, FinalFault>
    requires made { IsMade sample.search }
    requires whole { IsTrue (can_finish sample.search sample.whole) }
{
    let Sample { search, whole } = sample;
    finish(alloc, &search, max_buckets, whole)
}

fn is_bucket(bucket: &BucketAnswer, word: &str, count: u64, error: i64) -> bool {
    let is_key = match &bucket.key {
        Key::Word(text) => text.as_str() == word,
        _ => false,
    };
    is_key && bucket.count == count && bucket.error == Some(error)
}

/// Whether the answer has the one term `a` with this count, these errors, and this number of other documents.
fn has_a_alone(
    end: &Result<Answer, FinalFault>,
    count: u64,
    errors: (i64, i64),
    other: u64,
) -> bool {
    let Ok(answer) = end else {
        return false;
    };
    let [node] = answer.nodes.as_slice() else {
        return false;
    };
    let is_only = match node.buckets.as_slice() {
        [bucket] => is_bucket(bucket, "a", count, errors.0),
        _ => false,
    };
    is_only && node.error == errors.1 && node.other == other
}

#[test]
fn two_shards_cut_to_one_term_leave_an_error(rt: HostRuntime) -> Result<(), Fail> {
    let sample = sample_of(rt.alloc(), true, 3, 3, 3, 3, 3)?;
    assert!(rt; has_a_alone(&finished(rt.alloc(), sample, 1), 3, (3, 6), 6));
    Ok(())
}

#[test]
fn by_rising_count_the_error_is_unknown(rt: HostRuntime) -> Result<(), Fail> {
    let sample = sample_of(rt.alloc(), false, 1, 1, 2, 2, 6)?;
    assert!(rt; has_a_alone(&finished(rt.alloc(), sample, 1), 1, (-1, -1), 8));
    Ok(())
}
