//! Lists by place, which mostly come in the order of their places.

ghost use Rattle.std.specs.Prelude.{◌≡◌, ◌<◌, ◌∷◌, [], IfOk, IfSome, IsTrue, length, unwrap_or, option_map};
ghost use Rattle.std.specs.Map.{lookup};
ghost use Rattle.std.specs.BTreeMap.{is_at};
ghost use Rattle.std.specs.Ordering.{nat_cmp};
ghost use Rattle.document_rows.specs.Drafts.{has_room, with_item, Ascends, all_lists};

use agg_model::List;
use std::alloc::{AllocError, Global};
use std::collections::BTreeMap;
use std::collections::btree_map::Entry;
use std::mem;

/// A list of one item; most fields of a document have one value.
fn single<T: Drop>(alloc: Global, item: T) -> Result<List<T>, AllocError>
    ensures { IfOk result (λ list. list ≡ item ∷ []) }
{
    let mut first = Vec::with_capacity(alloc, 1)?;
    first.push(item)?;
    Ok(List::from_vec(first))
}

/// Puts an item behind those that stand at its place, and answers `true`; `false` where `most` stand there already, and
/// then the lists are of no more use. The place is looked up once.
fn append_among<T: Drop>(
    alloc: Global,
    lists: &mut BTreeMap<u32, List<T>>,
    place: u32,
    most: Option<usize>,
    item: T,
) -> Result<bool, AllocError>
    requires { IfSome most (λ n. 0 < n) }
    ensures room { IfOk result (λ added. added ≡ has_room most (unwrap_or (option_map length (lookup (is_at (nat_cmp place)) lists.old.entries)) 0)) }
    ensures added { IfOk result (λ added. IsTrue added → lists.new.entries ≡ with_item place item lists.old.entries) }
{
    match lists.entry(place) {
        Err(_) => Err(AllocError),
        Ok(Entry::Occupied(entry)) => {
            let found = entry.into_mut();
            if most.is_some_and(|most| found.len() >= most) {
                return Ok(false);
            }
            found.push(item)?;
            Ok(true)
        }
        Ok(Entry::Vacant(entry)) => {
            entry.insert(single(alloc, item)?);
            Ok(true)
        }
    }
}

/// Lists that ascend by place, as a map.
fn map_of<T: Drop>(
    alloc: Global,
    ascending: Vec<(u32, List<T>)>,
) -> Result<BTreeMap<u32, List<T>>, AllocError>
    requires { Ascends 0 ascending.items }
    ensures { IfOk result (λ lists. lists.entries ≡ ascending.items) }
{
    let mut left = ascending;
    let mut lists = BTreeMap::new(alloc);
    while let Some((place, list)) = left.pop() {
        lists.insert(place, list)?;
    }
    Ok(lists)
}

/// Puts an item behind those that stand at its place, and answers `true`; `false` where `most` stand there already, and
/// then the lists are of no more use.
///
/// The lists stand in a vector for as long as no place comes that is below the last one, and in the map from then on. So
/// what comes in order takes no search, and any order takes time in the logarithm of the places.
pub(crate) fn append<T: Drop>(
    alloc: Global,
    ascending: &mut Vec<(u32, List<T>)>,
    others: &mut BTreeMap<u32, List<T>>,
    place: u32,
    most: Option<usize>,
    item: T,
) -> Result<bool, AllocError>
    requires most { IfSome most (λ n. 0 < n) }
    requires ascends { Ascends 0 ascending.old.items }
    ensures room { IfOk result (λ added. added ≡ has_room most
        (unwrap_or (option_map length (lookup (is_at (nat_cmp place)) (all_lists ascending.old.items others.old.entries))) 0)) }
    ensures added { IfOk result (λ added. IsTrue added →
        all_lists ascending.new.items others.new.entries ≡ with_item place item (all_lists ascending.old.items others.old.entries)) }
    ensures ascends { Ascends 0 ascending.new.items }
{
    if !others.is_empty() {
        return append_among(alloc, others, place, most, item);
    }
    let Some((last, mut found)) = ascending.pop() else {
        ascending.push((place, single(alloc, item)?))?;
        return Ok(true);
    };
    if last == place {
        if most.is_some_and(|most| found.len() >= most) {
            return Ok(false);
        }
        found.push(item)?;
        ascending.push((last, found))?;
        return Ok(true);
    }
    ascending.push((last, found))?;
    if last < place {
        ascending.push((place, single(alloc, item)?))?;
        return Ok(true);
    }
    *others = map_of(alloc, mem::replace(ascending, Vec::new(alloc)))?;
    append_among(alloc, others, place, most, item)
}

/// All lists, ascending by place.
pub(crate) fn joined<T: Drop>(
    alloc: Global,
    ascending: Vec<(u32, List<T>)>,
    others: BTreeMap<u32, List<T>>,
) -> Result<Vec<(u32, List<T>)>, AllocError>
    ensures { IfOk result (λ lists. lists.items ≡ all_lists ascending.items others.entries) }
{
    if others.is_empty() {
        return Ok(ascending);
    }
    let mut lists = Vec::with_capacity(alloc, others.len())?;
    for entry in others {
        lists.push(entry)?;
    }
    Ok(lists)
}
