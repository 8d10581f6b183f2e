//! The desks of workers that have ended, in one.
ghost use Rattle.std.specs.Prelude.{◌≡◌, ◌+◌, All};
ghost use Rattle.std.specs.List.{sum_by};
ghost use Rattle.arrival_moves.specs.Closing.{IsAtEnd};
ghost use Rattle.arrival_moves.specs.declared.limits.TheConstants.{ALL_CLAIMS};
ghost use Rattle.arrival_table.specs.Models.{IsOf};
ghost use Rattle.shard_pool.specs.Desks.{HasEnded, claims_of};

use arrival_table::{Arrivals, Desk, Labelled};

/// All desks of a table in one, which has all claims.
pub(crate) fn join_desks<A: Labelled, R: Labelled>(
    table: &Arrivals<A, R>,
    mut desks: Vec<Desk<A, R>>,
) -> Desk<A, R>
    requires ended { All (HasEnded table.now) desks.items }
    requires claims { sum_by claims_of desks.items ≡ ALL_CLAIMS }
    ensures of { IsOf table.now result }
    ensures end { IsAtEnd result.view }
{
    let Some(mut joined) = desks.pop() else {
        unreachable!()
    };
    while let Some(desk) = desks.pop() {
        table.join(&mut joined, desk);
    }
    joined
}
