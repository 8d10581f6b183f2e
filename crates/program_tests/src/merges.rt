//! Two parts of one term each, with room for their charge and without.
ghost use Rattle.std.specs.Prelude.{◌≡◌, ◌∷◌, [], IfOk, Some, length, pos};
ghost use Rattle.agg_model.specs.declared.aggregation.Search.{Search as AnySearch};
ghost use Rattle.agg_model.specs.declared.key.Key.TheVariants as any_key;
ghost use Rattle.agg_model.specs.declared.partial.Node.TheVariants as node;
ghost use Rattle.batch_reduce.specs.Parts.{AreParts, cost_of_parts};
ghost use Rattle.breaker_words.specs.Passes.{IsOf};

use agg_model::{Bucket, Child, Key, Limits, List, Node, Partial, Text, Which};
use batch_reduce::{ReduceEnd, Tripped, reduce};
use breaker_tree::charge;
use breaker_words::{Pass, Trial, Words, set_ceiling};
use std::alloc::{AllocError, Global};
use std::process::Abort;
use std::test::Fail;

/// What a shard answers that has one document with this word.
fn part(alloc: Global, word: &str) -> Result<Partial, AllocError>
    ensures { IfOk result (λ p. p ≡ record {
      hits = 1;
      nodes = node.Keyed (record { key = any_key.Word word.now; count = 1; covered = 0; children = [] } ∷ []) 0 0 0 ∷ [];
    }) }
{
    let mut buckets = List::new(alloc);
    buckets.push(Bucket {
        key: Key::Word(Text::of(alloc, word)?),
        count: 1,
        covered: 0,
        children: List::new(alloc),
    })?;
    let mut nodes = List::new(alloc);
    nodes.push(Node::Keyed {
        buckets,
        error: 0,
        full: 0,
        cut: 0,
    })?;
    Ok(Partial { hits: 1, nodes })
}

fn two_parts(alloc: Global) -> Result<List<Partial>, AllocError>
    ensures { IfOk result (λ ps. ((search : AnySearch) × AreParts search ps) × (length ps ≡ 2)
        × (cost_of_parts ps ≡ 1282)) }
{
    let mut parts = List::new(alloc);
    parts.push(part(alloc, "a")?)?;
    parts.push(part(alloc, "b")?)?;
    Ok(parts)
}

/// Whether the result has both words, and the hits of both parts.
fn has_both(partial: &Partial) -> bool {
    let [Node::Keyed { buckets, .. }] = partial.nodes.as_slice() else {
        return false;
    };
    partial.hits == 2 && buckets.len() == 2
}

// Charges what the two parts cost, where nothing is held.
fn expect_charged(rt: &impl Abort, words: &Words, pass: &mut Pass)
    requires of { IsOf words.now pass.old }
    requires rest { pass.old.view.trial ≡ Trial.Rest }
    requires cap { pass.old.view.cap ≡ 100000 }
    ensures of { IsOf words.now pass.new }
    ensures rest { pass.new.view.trial ≡ Trial.Rest }
    ensures cap { pass.new.view.cap ≡ 100000 }
{
    assert!(rt; pass.hold(Which::Parent) == 0);
    assert_eq!(rt; charge(words, pass, Child::Request, 1_282), Ok(()));
}

// Merges the two parts, and asserts whether it was refused.
fn expect_end(
    rt: &impl Abort,
    alloc: Global,
    words: &Words,
    pass: &mut Pass,
    tripped: Option<Tripped>,
) -> Result<(), Fail>
    requires of { IsOf words.now pass.old }
    requires rest { pass.old.view.trial ≡ Trial.Rest }
    requires cap { pass.old.view.cap ≡ 100000 }
{
    assert!(rt; pass.hold(Which::Request) == 1_282 && pass.hold(Which::Parent) == 1_282);
    match reduce(alloc, words, pass, two_parts(alloc)?) {
        ReduceEnd::Done(merged) => {
            assert_eq!(rt; tripped, None);
            assert!(rt; has_both(&merged));
        }
        ReduceEnd::Refused(seen) => assert_eq!(rt; tripped, Some(seen)),
        ReduceEnd::Memory => return Err(AllocError.into()),
    }
    Ok(())
}

// Asserts what is held in the end, and what was granted at request.
fn expect_held(rt: &impl Abort, pass: &Pass, held: u64, granted: u64) {
    assert_eq!(rt;
        (pass.hold(Which::Request), pass.hold(Which::Parent)),
        (held, held)
    );
    assert_eq!(rt; pass.granted(Which::Request), granted);
}

// Merges the two parts where the limit of request is this many bytes.
fn expect_merged(
    rt: &impl Abort,
    alloc: Global,
    request: u64,
    tripped: Option<Tripped>,
    held: u64,
    granted: u64,
) -> Result<(), Fail> {
    let limits = Limits {
        request,
        fielddata: 10_000,
        inflight: 10_000,
        parent: 10_000,
    };
    let (words, mut pass) = Words::open(alloc, limits)?;
    set_ceiling(&words, &mut pass, 100_000);
    expect_charged(rt, &words, &mut pass);
    expect_end(rt, alloc, &words, &mut pass, tripped)?;
    expect_held(rt, &pass, held, granted);
    Ok(())
}

#[test]
fn two_parts_of_641_bytes_are_merged_or_refused(rt: HostRuntime) -> Result<(), Fail> {
    let refused = Tripped {
        which: Which::Request,
        wanted: 2_564,
        limit: 1_300,
    };
    expect_merged(&rt, rt.alloc(), 1_300, Some(refused), 0, 1_282)?;
    expect_merged(&rt, rt.alloc(), 10_000, None, 770, 2_564)
}
