// How far a count of terms may be too low.
ghost use Rattle.std.specs.Prelude.{◌≡◌, ◌<◌, ◌^◌};
ghost use Rattle.agg_spec.specs.CountErrors.{precision_of, count_error as error_of_count};

use agg_model::{List, Order, OrderBy};

/// The error of a count in this order. The shards' errors add up to `error`, those of the shards that returned the
/// term to `covered`, and `full` shards returned as many terms as they were asked for.
pub(crate) fn count_error(order: &List<Order>, error: u64, covered: u64, full: u32) -> i64
    requires { error < 2 ^ 63 }
    ensures { result ≡ error_of_count (precision_of order.now) error covered full }
{
    let Some(first) = order.get(0) else {
        return 0;
    };
    match first.by {
        OrderBy::Key => 0,
        OrderBy::Count if first.descending => error.saturating_sub(covered) as i64,
        OrderBy::Count | OrderBy::Child(_) => { if full > 0 { -1 } else { 0 } }
    }
}
