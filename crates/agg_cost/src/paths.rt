//! The rows that an aggregation reaches, and how many paths of keys lead to each.
ghost use Rattle.std.specs.Prelude.{◌≡◌, ℕ, ◌+◌, ◌*◌, ◌<◌, List, OnOk};
ghost use Rattle.agg_cost.specs.Capped.{Alike};
ghost use Rattle.agg_cost.specs.Paths.{reached_by, over_paths, AreBelow};
ghost use Rattle.agg_evaluation.specs.Rows.{PlacedRow, row_of};

use std::alloc::AllocError;

/// A row, and how many paths of keys lead to it from the top, or the greatest number of 64 bits where there are more.
#[derive(Clone, Copy, Drop)]
pub struct RowPaths {
    pub row: u32,
    pub paths: u64,
}

/// Adds paths to a row; those to the row that was put last are added to its own.
pub fn put(found: &mut Vec<RowPaths>, row: u32, paths: u64) -> Result<(), AllocError>
    ensures paths { OnOk result ((rows : List PlacedRow) (f : PlacedRow → ℕ) →
        Alike (over_paths f (reached_by rows found.new.items)) (over_paths f (reached_by rows found.old.items) + paths * f (row_of rows row))) }
    ensures in_range { OnOk result ((n : ℕ) → row < n → AreBelow n found.old.items → AreBelow n found.new.items) }
{
    if paths == 0 {
        return Ok(());
    }
    if let Some(last) = found.last_mut() {
        if last.row == row {
            last.paths = last.paths.saturating_add(paths);
            return Ok(());
        }
    }
    found.push(RowPaths { row, paths })?;
    Ok(())
}
