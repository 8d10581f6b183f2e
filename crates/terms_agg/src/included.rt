//! Whether a request includes a value.
ghost use Rattle.std.specs.Prelude.{◌≡◌, map};
ghost use Rattle.std.specs.List.{list_any};
ghost use Rattle.agg_model.specs.ValueKeys.{scalar_key, probe_key};
ghost use Rattle.agg_evaluation.specs.KeyOrder.{key_eq, has_key};
ghost use Rattle.agg_evaluation.specs.Keys.{is_included as is_included_key};
ghost use Rattle.shard_columns.specs.Cell.{scalar_of};

use agg_model::{List, Probe, Scalar};
use shard_columns::Cell;

/// The value, lent.
pub fn cell_of(value: &Scalar) -> Cell<'_>
    ensures { scalar_of result ≡ value.now }
{
    match value {
        Scalar::Whole(number) => Cell::Whole(*number),
        Scalar::Word(word) => Cell::Word(word.as_str()),
        Scalar::Flag(flag) => Cell::Flag(*flag),
    }
}

fn is_value_of(cell: Cell<'_>, probe: &Probe) -> bool
    ensures { result ≡ key_eq (scalar_key (scalar_of cell.entry)) (probe_key probe.now) }
{
    match cell {
        Cell::Whole(value) => match probe {
            Probe::Whole(wanted) => i128::from(value).cmp(wanted).is_eq(),
            Probe::Flag(_) | Probe::Word(_) => false,
        },
        Cell::Flag(value) => match probe {
            Probe::Flag(wanted) => value.cmp(wanted).is_eq(),
            Probe::Whole(_) | Probe::Word(_) => false,
        },
        Cell::Word(value) => match probe {
            Probe::Word(wanted) => value.cmp(wanted.as_str()).is_eq(),
            Probe::Whole(_) | Probe::Flag(_) => false,
        },
    }
}

fn is_one_of(cell: Cell<'_>, probes: &[Probe]) -> bool
    ensures { result ≡ list_any (λ probe. key_eq (scalar_key (scalar_of cell.entry)) (probe_key probe)) probes.now }
{
    probes.iter().any(|probe| is_value_of(cell, probe))
}

// The same, of the keys of the list.
fn is_among(cell: Cell<'_>, probes: &List<Probe>) -> bool
    ensures { result ≡ has_key (scalar_key (scalar_of cell.entry)) (map probe_key probes.now) }
{
    is_one_of(cell, probes.as_slice())
}

/// Whether the value is in `include`, where that is given, and not in `exclude`. It goes through the lists.
pub fn is_included(cell: Cell<'_>, include: &Option<List<Probe>>, exclude: &List<Probe>) -> bool
    ensures { result ≡ is_included_key include.now exclude.now (scalar_key (scalar_of cell.entry)) }
{
    let is_in = match include {
        Some(probes) => is_among(cell, probes),
        None => true,
    };
    is_in && !is_among(cell, exclude)
}
