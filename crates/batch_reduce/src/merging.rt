//! Many parts as one, in time that is their size times the logarithm of their number.
ghost use Rattle.std.specs.Prelude.{◌≡◌, ◌≤◌, ◌∷◌, [], IfOk, Ok, length};
ghost use Rattle.agg_model.specs.declared.aggregation.Search.{Search as AnySearch};
ghost use Rattle.agg_model.specs.declared.partial.Partial.{Partial as AnyPartial};
ghost use Rattle.agg_evaluation.specs.Whole.{whole};
ghost use Rattle.batch_reduce.specs.Parts.{AreParts};
ghost use Rattle.batch_reduce.specs.Taken.{IsTaken};

use agg_model::{List, Partial};
use partial_result::merge;
use std::alloc::{AllocError, Global};
use std::collections::VecDeque;

/// All the parts as one. One part stays as it is.
pub(crate) fn merge_all(alloc: Global, parts: List<Partial>) -> Result<Partial, AllocError>
    requires some { 1 ≤ length parts }
    ensures whole { IfOk result (λ p. (search : AnySearch) → AreParts search parts → p ≡ whole search parts) }
    ensures one { (p : AnyPartial) → parts ≡ p ∷ [] → result ≡ Ok p }
{
    let count = parts.len();
    let mut parts = VecDeque::from_vec(parts.into_vec());
    let merged = merge_next(alloc, &mut parts, count)?;
    Ok(merged)
}

/// Takes the next `count` parts, and merges the one half of them with the other: each part is in as many merges as
/// `count` can be halved.
fn merge_next(
    alloc: Global,
    parts: &mut VecDeque<Partial>,
    count: usize,
) -> Result<Partial, AllocError>
    requires some { 1 ≤ count }
    requires enough { count ≤ length parts.old.items }
    ensures taken { IfOk result (λ p. IsTaken parts.old.items count p parts.new.items) }
    ensures one { (p : AnyPartial) → parts.old.items ≡ p ∷ [] → result ≡ Ok p }
{
    if count == 1 {
        let Some(part) = parts.pop_front() else {
            unreachable!()
        };
        return Ok(part);
    }
    let half = count / 2;
    let one = merge_next(alloc, parts, half)?;
    let other = merge_next(alloc, parts, count - half)?;
    let merged = merge(alloc, one, other)?;
    Ok(merged)
}
