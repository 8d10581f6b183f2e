//! Final answers of histograms with gaps.
ghost use Rattle.std.specs.Prelude.{◌≡◌, ◌<◌, ◌^◌, [], None, IfOk, IsTrue, map};
ghost use Rattle.std.specs.List.{list_all};
ghost use Rattle.agg_model.specs.declared.aggregation.Agg.{out-Agg};
ghost use Rattle.agg_model.specs.declared.aggregation.Kind.TheVariants.{Sum};
ghost use Rattle.agg_model.specs.declared.key.Key.TheVariants.{Whole};
ghost use Rattle.agg_model.specs.declared.partial.Node.TheVariants.{Keyed};
ghost use Rattle.agg_model.specs.declared.aggregation.Spacing.TheVariants.{Numbers};
ghost use Rattle.agg_evaluation.specs.Finishable.{can_finish, is_histogram_key};
ghost use Rattle.agg_evaluation.specs.SearchFits.{IsMade};
ghost use Rattle.program_tests.specs.SampleGaps.{IsHistogram, counted_bucket, no_bounds, rises};

use crate::finals::{Sample, finished, of_one, one};
use agg_model::{
    Agg, Answer, Bounds, Bucket, BucketAnswer, Key, Kind, List, Node, Order, OrderBy, Text,
};
use final_reduce::FinalFault;
use std::alloc::{AllocError, Global};
use std::test::Fail;

/// A histogram with a minimum count of 0, in the order of keys.
fn histogram(
    alloc: Global,
    interval: u64,
    offset: u64,
    extended: Bounds,
    children: List<Agg>,
) -> Result<Agg, AllocError>
    ensures { IfOk result (λ agg. IsHistogram interval offset extended children (out-Agg agg)) }
{
    let by_key = Order {
        by: OrderBy::Key,
        descending: false,
    };
    Ok(Agg {
        name: Text::of(alloc, "h")?,
        kind: Kind::Histogram {
            field: 1,
            interval,
            offset,
            min_doc_count: 0,
            extended,
            hard: Bounds {
                min: None,
                max: None,
            },
            keyed: false,
            order: one(alloc, by_key)?,
            missing: None,
        },
        children,
    })
}

fn buckets(alloc: Global, keys: &[(i64, u64)]) -> Result<List<Bucket>, AllocError>
    ensures { IfOk result (λ bs. bs ≡ map counted_bucket keys.now) }
{
    let mut buckets = List::new(alloc);
    for (key, count) in keys {
        buckets.push(Bucket {
            key: Key::Whole(i128::from(*key)),
            count: *count,
            covered: 0,
            children: List::new(alloc),
        })?;
    }
    Ok(buckets)
}

fn node(buckets: List<Bucket>) -> Node
    ensures { result ≡ Keyed buckets 0 0 0 }
{
    Node::Keyed {
        buckets,
        error: 0,
        full: 0,
        cut: 0,
    }
}

/// A histogram of these keys and counts.
fn of_keys(
    alloc: Global,
    interval: u64,
    offset: u64,
    keys: &[(i64, u64)],
) -> Result<Sample, AllocError>
    requires positive { 0 < interval }
    requires below { interval < 2 ^ 63 }
    requires offset { offset < interval }
    requires ascending { IsTrue (rises keys.now) }
    requires keys { IsTrue (list_all (λ p. is_histogram_key (Numbers interval offset) no_bounds (Whole p.0)) keys.now) }
    ensures made { IfOk result (λ sample. IsMade sample.search) }
    ensures whole { IfOk result (λ sample. IsTrue (can_finish sample.search sample.whole)) }
{
    let none = Bounds {
        min: None,
        max: None,
    };
    let agg = histogram(alloc, interval, offset, none, List::new(alloc))?;
    let buckets = buckets(alloc, keys)?;
    of_one(alloc, agg, node(buckets))
}

/// A histogram with no bucket, from 0 to 10, over a sum.
fn of_nothing(alloc: Global) -> Result<Sample, AllocError>
    ensures made { IfOk result (λ sample. IsMade sample.search) }
    ensures whole { IfOk result (λ sample. IsTrue (can_finish sample.search sample.whole)) }
{
    let extended = Bounds {
        min: Some(0),
        max: Some(10),
    };
    let children = one(alloc, sum(alloc)?)?;
    let agg = histogram(alloc, 10, 0, extended, children)?;
    of_one(alloc, agg, node(List::new(alloc)))
}

fn sum(alloc: Global) -> Result<Agg, AllocError>
    ensures kind { IfOk result (λ agg. (out-Agg agg).kind ≡ Sum 1 None) }
    ensures alone { IfOk result (λ agg. (out-Agg agg).children ≡ []) }
{
    Ok(Agg {
        name: Text::of(alloc, "s")?,
        kind: Kind::Sum {
            field: 1,
            missing: None,
        },
        children: List::new(alloc),
    })
}

fn is_bucket(bucket: &BucketAnswer, key: i128, count: u64) -> bool {
    let is_key = match &bucket.key {
        Key::Whole(number) => *number == key,
        _ => false,
    };
    is_key && bucket.count == count
}

/// Whether the answer has exactly these keys with these counts.
fn has_buckets(end: &Result<Answer, FinalFault>, keys: &[(i128, u64)]) -> bool {
    let Ok(answer) = end else {
        return false;
    };
    let [node] = answer.nodes.as_slice() else {
        return false;
    };
    if node.buckets.len() != keys.len() {
        return false;
    }
    for (bucket, (key, count)) in node.buckets.as_slice().iter().zip(keys) {
        if !is_bucket(bucket, *key, *count) {
            return false;
        }
    }
    true
}

/// Whether there would be so many buckets, above the most that may be.
fn is_refused(end: &Result<Answer, FinalFault>, buckets: u64, most: u64) -> bool {
    match end {
        Err(FinalFault::TooManyBuckets { count, max }) => *count == buckets && *max == most,
        _ => false,
    }
}

/// Whether below the bucket stands a sum of 0 alone.
fn has_no_sum(bucket: &BucketAnswer) -> bool {
    match bucket.children.as_slice() {
        [sum] => sum.name.as_str() == "s" && sum.metric.sum == 0,
        _ => false,
    }
}

/// Whether the answer has two buckets, with a sum of 0 below each.
fn has_two_without_sums(end: &Result<Answer, FinalFault>) -> bool {
    let Ok(answer) = end else {
        return false;
    };
    let [node] = answer.nodes.as_slice() else {
        return false;
    };
    match node.buckets.as_slice() {
        [first, second] => has_no_sum(first) && has_no_sum(second),
        _ => false,
    }
}

#[test]
fn gaps_are_filled_below_0_too(rt: HostRuntime) -> Result<(), Fail> {
    let sample = of_keys(rt.alloc(), 10, 0, &[(-10, 1), (0, 1), (20, 1)])?;
    let end = finished(rt.alloc(), sample, 4);
    assert!(rt; has_buckets(&end, &[(-10, 1), (0, 1), (10, 0), (20, 1)]));
    Ok(())
}

#[test]
fn an_offset_moves_the_keys(rt: HostRuntime) -> Result<(), Fail> {
    let sample = of_keys(rt.alloc(), 10, 3, &[(-7, 2), (23, 1)])?;
    let end = finished(rt.alloc(), sample, 4);
    assert!(rt; has_buckets(&end, &[(-7, 2), (3, 0), (13, 0), (23, 1)]));
    Ok(())
}

#[test]
fn ten_thousand_million_gaps_are_refused_at_once(rt: HostRuntime) -> Result<(), Fail> {
    let sample = of_keys(rt.alloc(), 1, 0, &[(0, 1), (10_000_000_000, 1)])?;
    let end = finished(rt.alloc(), sample, 100);
    assert!(rt; is_refused(&end, 10_000_000_001, 100));
    Ok(())
}

#[test]
fn below_a_filled_bucket_stand_the_answers_over_no_rows(rt: HostRuntime) -> Result<(), Fail> {
    let end = finished(rt.alloc(), of_nothing(rt.alloc())?, 2);
    assert!(rt; has_two_without_sums(&end));
    Ok(())
}
