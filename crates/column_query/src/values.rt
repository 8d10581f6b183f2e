// How a value that a row has compares with those that a query asks for.
ghost use Rattle.std.specs.Prelude.{◌≡◌, ◌<◌, length};
ghost use Rattle.std.specs.List.{list_any, list_all};
ghost use Rattle.agg_evaluation.specs.KeyOrder.{key_cmp, key_eq};
ghost use Rattle.agg_model.specs.ValueKeys.{scalar_key, probe_key};
ghost use Rattle.agg_evaluation.specs.Matching.{allows as allows_order, passes as passes_test};
ghost use Rattle.agg_evaluation.specs.Rows.{values_of, row_of};
ghost use Rattle.shard_columns.specs.Cell.{scalar_of};
ghost use Rattle.column_query.specs.Wanted.{wants as wants_value};

use agg_model::{Probe, RangeOp, RangeTest};
use shard_columns::{Cell, Shard};
use std::cmp::Ordering;

fn compare(cell: Cell<'_>, probe: &Probe) -> Ordering
    ensures { result ≡ key_cmp (scalar_key (scalar_of cell.entry)) (probe_key probe.now) }
{
    match cell {
        Cell::Whole(value) => match probe {
            Probe::Whole(wanted) => i128::from(value).cmp(wanted),
            Probe::Flag(_) | Probe::Word(_) => Ordering::Less,
        },
        Cell::Flag(value) => match probe {
            Probe::Whole(_) => Ordering::Greater,
            Probe::Flag(wanted) => value.cmp(wanted),
            Probe::Word(_) => Ordering::Less,
        },
        Cell::Word(value) => match probe {
            Probe::Whole(_) | Probe::Flag(_) => Ordering::Greater,
            Probe::Word(wanted) => value.cmp(wanted.as_str()),
        },
    }
}

/// Whether a bound allows a value that compares with it in this way.
pub fn allows(op: RangeOp, order: Ordering) -> bool
    ensures { result ≡ allows_order op order }
{
    match op {
        RangeOp::Gt => order.is_gt(),
        RangeOp::Gte => order.is_ge(),
        RangeOp::Lt => order.is_lt(),
        RangeOp::Lte => order.is_le(),
    }
}

fn passes(test: &RangeTest, cell: Cell<'_>) -> bool
    ensures { result ≡ passes_test test.now (scalar_of cell.entry) }
{
    allows(test.op, compare(cell, &test.value))
}

fn equals_one(cell: Cell<'_>, probes: &[Probe]) -> bool
    ensures { result ≡ list_any (λ probe. key_eq (scalar_key (scalar_of cell.entry)) (probe_key probe)) probes.now }
{
    probes.iter().any(|probe| compare(cell, probe).is_eq())
}

fn passes_all(cell: Cell<'_>, tests: &[RangeTest]) -> bool
    ensures { result ≡ list_all (λ test. passes_test test (scalar_of cell.entry)) tests.now }
{
    tests.iter().all(|test| passes(test, cell))
}

/// What a query wants of a value of its field.
#[derive(Clone, Copy)]
pub enum Wanted<'q> {
    Equal(&'q Probe),
    OneOf(&'q [Probe]),
    Within(&'q [RangeTest]),
}

fn wants(wanted: Wanted<'_>, cell: Cell<'_>) -> bool
    ensures { result ≡ wants_value wanted.entry (scalar_of cell.entry) }
{
    match wanted {
        Wanted::Equal(probe) => compare(cell, probe).is_eq(),
        Wanted::OneOf(probes) => equals_one(cell, probes),
        Wanted::Within(tests) => passes_all(cell, tests),
    }
}

/// Whether a row has a value of the field such as is wanted.
pub fn has_wanted(shard: &Shard, row: u32, field: u32, wanted: Wanted<'_>) -> bool
    requires { row < length shard.now.rows }
    ensures { result ≡ list_any (wants_value wanted.entry) (values_of field (row_of shard.now.rows row)) }
{
    for place in 0..shard.value_count(row, field) {
        if wants(wanted, shard.value(row, field, place)) {
            return true;
        }
    }
    false
}
