//! Rows by the codes of their keys.
ghost use Rattle.std.specs.Prelude.{◌≡◌, ◌<◌, ◌++◌, ◌∷◌, [], ℤ, ℕ, List as AnyList, All, IfOk, OnOk, length, map};
ghost use Rattle.std.specs.List.{IsDistinct};
ghost use Rattle.std.specs.Ordering.{int_eq};
ghost use Rattle.agg_model.specs.declared.key.Key.{Key};
ghost use Rattle.agg_evaluation.specs.Keys.{keys};
ghost use Rattle.agg_evaluation.specs.Rows.{row_of};
ghost use Rattle.shard_columns.specs.Built.{IsShard};
ghost use Rattle.growing_tree.specs.Codes.{code_key};
ghost use Rattle.growing_tree.specs.Grouped.{AreGroups, HasOwnKeys, pairs_of};
ghost use Rattle.growing_tree.specs.Readiness.{IsKindReady};

use crate::kinds::row_codes;
use crate::ready::ReadyKind;
use agg_model::{Kind, List};
use bucket_places::{Place, Places};
use shard_columns::Shard;
use std::alloc::{AllocError, Global};

// A table of so many entries for a row takes about as long as a map.
const ENTRIES_A_ROW: usize = 16;

/// Codes, and the rows that have each of them.
#[derive(Drop)]
pub(crate) struct Groups {
    pub(crate) places: Places,
    pub(crate) rows: Vec<List<u32>>,
}

// A row with a code.
fn add(
    alloc: Global,
    code: i64,
    row: u32,
    places: &mut Places,
    groups: &mut Vec<List<u32>>,
) -> Result<(), AllocError>
    ensures groups { OnOk result ((key_of : ℤ → Key) → HasOwnKeys key_of → (pairs : AnyList (Key × ℕ)) →
        AreGroups key_of pairs places.old groups.old.items →
        AreGroups key_of (pairs ++ (key_of code, row) ∷ []) places.new groups.new.items) }
{
    let found = places.find_or_add(code)?;
    match found {
        Place::Found(place) => {
            if place >= groups.len() {
                return Err(AllocError);
            }
            groups[place].push(row)?;
            Ok(())
        }
        Place::Added(_place) => {
            let mut rows = List::new(alloc);
            rows.push(row)?;
            groups.push(rows)?;
            Ok(())
        }
    }
}

// A row with each of these codes.
fn add_all(
    alloc: Global,
    codes: &[i64],
    row: u32,
    places: &mut Places,
    groups: &mut Vec<List<u32>>,
) -> Result<(), AllocError>
    ensures groups { OnOk result ((key_of : ℤ → Key) → HasOwnKeys key_of → (pairs : AnyList (Key × ℕ)) →
        AreGroups key_of pairs places.old groups.old.items →
        AreGroups key_of (pairs ++ map (λ k. (k, row)) (map key_of codes.now)) places.new groups.new.items) }
{
    for place in 0..codes.len() {
        add(alloc, codes[place], row, places, groups)?;
    }
    Ok(())
}

// No code, with an index for those of so many rows: a table where it has no more than a few entries for each of them.
fn places_for(alloc: Global, width: u32, rows: usize) -> Result<Places, AllocError>
    ensures { IfOk result (λ places. places ≡ []) }
{
    if width as usize / ENTRIES_A_ROW > rows {
        return Ok(Places::ordered(alloc));
    }
    let places = Places::dense(alloc, width)?;
    Ok(places)
}

/// The rows by the codes of their keys, in time n log n in the keys of the rows. Of the codes from 0 to below `width` there may
/// be many.
pub(crate) fn group_rows(
    alloc: Global,
    shard: &Shard,
    kind: &Kind,
    ready: &ReadyKind,
    width: u32,
    rows: &[u32],
) -> Result<Groups, AllocError>
    requires ready { IsKindReady shard.now kind.now ready.now }
    requires built { IsShard shard.now }
    requires in_range { All (λ n. n < length shard.now.rows) rows.now }
    ensures groups { IfOk result (λ g. AreGroups (code_key shard.now ready.now)
        (pairs_of (λ n. keys shard.now.rows kind.now (row_of shard.now.rows n)) rows.now) g.places g.rows.items) }
{
    let mut places = places_for(alloc, width, rows.len())?;
    let mut groups = Vec::new(alloc);
    let mut codes = Vec::new(alloc);
    for row in rows {
        row_codes(shard, kind, ready, *row, &mut codes)?;
        add_all(alloc, codes.as_slice(), *row, &mut places, &mut groups)?;
    }
    Ok(Groups {
        places,
        rows: groups,
    })
}
