//! Items in the order of the sources, and the places of keys among them.
ghost use Rattle.std.specs.Prelude.{◌≡◌, ◌<◌, ◌≤◌, IfOk, IfErr, IsTrue, take, drop, length, slice_index_or, None, true, false};
ghost use Rattle.agg_evaluation.specs.CompositeKeys.{is_composite_of};
ghost use Rattle.std.specs.List.{last_or, list_all, AllByRecursion};
ghost use Rattle.std.specs.Option.{option_map_or};
ghost use Rattle.std.specs.Ordering.{is_lt};
ghost use Rattle.composite_agg.specs.InOrder.{IsInOrder, all_before, all_behind, page_cmp};

use crate::keyed::HasKey;
use crate::sought::Sought;
use agg_model::{CompositeSource, Key, List};
use std::cmp::Ordering;

/// Whether a key comes before the one that is looked for, in the order of the sources.
pub fn is_before<K: Sought>(sources: &List<CompositeSource>, other: &Key, key: &K) -> bool
    ensures { result ≡ is_lt (page_cmp sources.now other.now (K.sought key.now)) }
{
    key.compare(sources, other) == Ordering::Less
}

/// The number of items that come before a key, by binary search.
pub fn place_of<T: HasKey, K: Sought>(
    sources: &List<CompositeSource>,
    items: &[T],
    key: &K,
) -> usize
    requires { IsInOrder T.key_of sources.now items.now }
    ensures within { result ≤ length items.now }
    ensures before { IsTrue (all_before T.key_of sources.now (K.sought key.now) (take result items.now)) }
    ensures behind { AllByRecursion (λ x. is_lt (page_cmp sources.now (T.key_of x) (K.sought key.now)) ≡ false) (drop result items.now) }
{
    items.partition_point(|item| is_before(sources, item.key(), key))
}

/// Whether the last of these items, if any, comes before a key.
pub fn ends_before<T: HasKey, K: Sought>(
    sources: &List<CompositeSource>,
    items: &[T],
    key: &K,
) -> bool
    ensures { result ≡ option_map_or (λ x. is_lt (page_cmp sources.now (T.key_of x) (K.sought key.now))) (last_or None items.now) true }
{
    match items.last() {
        Some(last) => is_before(sources, last.key(), key),
        None => true,
    }
}

/// The place of the item that has the key, by binary search, or else where one with the key would stand.
pub fn find<T: HasKey, K: Sought>(
    sources: &List<CompositeSource>,
    items: &[T],
    key: &K,
) -> Result<usize, usize>
    requires order { IsInOrder T.key_of sources.now items.now }
    requires parts { IsTrue (list_all (λ x. is_composite_of (length sources.now) (T.key_of x)) items.now) }
    requires key_parts { IsTrue (is_composite_of (length sources.now) (K.sought key.now)) }
    ensures found { IfOk result (λ i. (i < length items.now) × ((d : _) → T.key_of (slice_index_or items.now i d) ≡ (K.sought key.now))) }
    ensures absent { IfErr result (λ i. (i ≤ length items.now)
        × IsTrue (all_before T.key_of sources.now (K.sought key.now) (take i items.now))
        × IsTrue (all_behind T.key_of sources.now (K.sought key.now) (drop i items.now))) }
{
    let place = place_of(sources, items, key);
    match items.get(place) {
        Some(item) => {
            if key.compare(sources, item.key()) == Ordering::Equal {
                Ok(place)
            } else {
                Err(place)
            }
        }
        None => Err(place),
    }
}
