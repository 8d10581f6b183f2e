//! Buckets as the pipelines directly below their aggregation leave them ('Bucket sort aggregation').
ghost use Rattle.std.specs.Prelude.{◌≡◌, OnOk};
ghost use Rattle.bucket_order.specs.Kinds.{child_kinds};
ghost use Rattle.pipeline_agg.specs.Placed.{pipes_of};
ghost use Rattle.pipeline_agg.specs.Told.{arranged_buckets, arranged_by};

use crate::placed::Placed;
use crate::remarked::RemarkedBucket;
use crate::sorting::{cut_from, sort_buckets};
use agg_model::{Agg, List, PipeKind};
use std::alloc::AllocError;

/// Sorts and cuts buckets by a `bucket_sort`; the other kinds leave them as they are.
fn arrange_by(
    children: &List<Agg>,
    kind: &PipeKind,
    buckets: &mut Vec<RemarkedBucket>,
) -> Result<(), AllocError>
    ensures { OnOk result (buckets.new.items ≡ arranged_by (child_kinds children.now) kind.now buckets.old.items) }
{
    match kind {
        PipeKind::BucketSort { sort, from, size } => {
            sort_buckets(children, sort, &mut *buckets)?;
            cut_from(*from, *size, buckets);
            Ok(())
        }
        PipeKind::CumulativeSum { .. }
        | PipeKind::Derivative { .. }
        | PipeKind::SumBucket { .. }
        | PipeKind::MinBucket { .. }
        | PipeKind::MaxBucket { .. } => Ok(()),
    }
}

/// Sorts and cuts buckets by each `bucket_sort` among the pipelines directly below their aggregation.
pub(crate) fn arrange(
    children: &List<Agg>,
    pipes: &[Placed<'_>],
    buckets: &mut Vec<RemarkedBucket>,
) -> Result<(), AllocError>
    ensures { OnOk result (buckets.new.items ≡ arranged_buckets (child_kinds children.now) (pipes_of pipes.now) buckets.old.items) }
{
    for placed in pipes {
        if placed.at.is_empty() {
            arrange_by(children, &placed.pipe.kind, &mut *buckets)?;
        }
    }
    Ok(())
}
