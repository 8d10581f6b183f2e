// The composite keys that an answer returns.
ghost use Rattle.std.specs.Prelude.{◌≡◌, IfOk, IsTrue, take, length};
ghost use Rattle.std.specs.List.{list_all};
ghost use Rattle.list_laws.specs.Sorting.{sorted};
ghost use Rattle.agg_evaluation.specs.Orders.{bucket_key, composite_cmp};
ghost use Rattle.agg_evaluation.specs.CompositeKeys.{is_composite_of};

use agg_model::{Bucket, CompositeSource, List};
use bucket_order::sort_composites;
use std::alloc::AllocError;

pub(crate) fn first_composites(
    sources: &List<CompositeSource>,
    size: u32,
    buckets: List<Bucket>,
) -> Result<List<Bucket>, AllocError>
    requires { IsTrue (list_all (λ b. is_composite_of (length sources.now) (bucket_key b)) buckets) }
    ensures { IfOk result (λ bs. bs ≡ take size (sorted (λ a b. composite_cmp sources.now (bucket_key a) (bucket_key b)) buckets)) }
{
    let mut first = buckets.into_vec();
    sort_composites(sources, &mut first)?;
    first.truncate(size as usize);
    Ok(List::from_vec(first))
}
