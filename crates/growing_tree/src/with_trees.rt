//! Buckets below which there are metrics alone, as buckets that have their codes and their trees.
ghost use Rattle.std.specs.Prelude.{◌≡◌, IfOk, map, slice_index_or};
ghost use Rattle.agg_model.specs.declared.partial.Node.TheVariants.{Number as NumberNode};
ghost use Rattle.growing_tree.specs.CodedBuckets.{coded_bucket};
ghost use Rattle.growing_tree.specs.Frequent.{frequent};
ghost use Rattle.growing_tree.specs.Measures.{measures_of, metrics_at, no_values};
ghost use Rattle.growing_tree.specs.Trees.{measured_buckets};

use crate::coded::Coded;
use crate::measured::Measured;
use crate::number::Taken;
use crate::tree::{Growing, Level, Tree};
use std::alloc::{AllocError, Global};

// What a metric has taken in the bucket at a place.
fn taken_in(column: &[Taken], place: usize) -> Taken
    ensures { result ≡ slice_index_or column.now place no_values }
{
    match column.get(place) {
        Some(taken) => taken.copy(),
        None => Taken::new(),
    }
}

// The trees of the metrics of the bucket at a place.
fn trees_at(alloc: Global, columns: &[Vec<Taken>], place: usize) -> Result<Vec<Tree>, AllocError>
    ensures { IfOk result (λ trees. trees.items ≡ map NumberNode (metrics_at columns.now place)) }
{
    let mut trees = Vec::with_capacity(alloc, columns.len())?;
    for column in columns {
        trees.push(Tree {
            level: Level::Number(taken_in(column.as_slice(), place)),
        })?;
    }
    Ok(trees)
}

/// The buckets that have at least so many rows, in the order in which their codes came, each with the trees of its metrics.
pub(crate) fn with_trees(
    alloc: Global,
    measured: &Measured,
    least: u64,
) -> Result<Vec<Coded>, AllocError>
    ensures { IfOk result (λ coded. map coded_bucket coded.items
        ≡ frequent least (measured_buckets measured.now.places (measures_of measured.now))) }
{
    let codes = measured.places.codes();
    let counts = measured.counts.as_slice();
    let mut coded = Vec::new(alloc);
    for place in 0..counts.len().min(codes.len()) {
        if counts[place] >= least {
            coded.push(Coded {
                code: codes[place],
                bucket: Growing {
                    count: counts[place],
                    children: trees_at(alloc, measured.columns.as_slice(), place)?,
                },
            })?;
        }
    }
    Ok(coded)
}
