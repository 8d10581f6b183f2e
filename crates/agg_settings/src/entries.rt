//! The entries `key=value` of `-E`: breaker limits, the heap and the greatest number of buckets.

ghost use Rattle.std.specs.Prelude.{◌≡◌, ◌≤◌, ◌^◌, map, option_map};
ghost use Rattle.agg_settings.specs.Entries.{key_of, value_of, is_taken, is_entry, last_value, heap_in, limit_in, limits_in, max_buckets_in};
ghost use Rattle.agg_settings.specs.Ranges.{AreLimits};

use crate::amount::{Amount, amount_of, bytes_in, size_from};
use crate::names::{FIELDDATA, HEAP_SIZE, INFLIGHT, MAX_BUCKETS, REAL_MEMORY, REQUEST, TOTAL};
use crate::numbers::number_in;
use crate::values::parts;
use agg_model::Limits;
use agg_model::limits::{
    DEFAULT_HEAP_SIZE, DEFAULT_MAX_BUCKETS, GREATEST_MAX_BUCKETS, MAX_BYTE_SIZE,
};

/// The key and the value of an entry.
pub(crate) fn entry_parts(entry: &str) -> (&str, &str)
    ensures key { result.0.now ≡ key_of entry.now }
    ensures value { result.1.now ≡ value_of entry.now }
{
    parts(entry, '=')
}

/// Whether the key is known, and takes this value.
#[tactic(auto, unfolding(crate::specs::Entries::is_taken))]
fn is_taken(key: &str, value: &str) -> bool
    ensures { result ≡ is_taken key.now value.now }
{
    let bytes = value.as_bytes();
    if key == HEAP_SIZE {
        size_from(1, bytes).is_some()
    } else if key == TOTAL {
        amount_of(bytes).is_some()
    } else if key == REQUEST {
        amount_of(bytes).is_some()
    } else if key == FIELDDATA {
        amount_of(bytes).is_some()
    } else if key == INFLIGHT {
        amount_of(bytes).is_some()
    } else if key == REAL_MEMORY {
        value == "false"
    } else if key == MAX_BUCKETS {
        number_in(1, GREATEST_MAX_BUCKETS, bytes).is_some()
    } else {
        false
    }
}

/// Whether an entry's key is known, and takes its value.
pub(crate) fn is_entry(entry: &str) -> bool
    ensures { result ≡ is_entry entry.now }
{
    let (key, value) = entry_parts(entry);
    is_taken(key, value)
}

/// The value of the last entry with this key; none where there is none.
#[tactic(auto, unfolding(crate::specs::Entries::last_value))]
fn last_value<'a>(key: &str, entries: &[&'a str]) -> Option<&'a str>
    ensures { option_map (λ s. s.now) result ≡ last_value key.now (map (λ s. s.now) entries.now) }
{
    let mut last = None;
    for entry in entries {
        let (name, value) = entry_parts(entry);
        if name == key {
            last = Some(value);
        }
    }
    last
}

/// The bytes of the heap: the last `heap_size`, or 1gb.
#[tactic(auto, unfolding(crate::specs::Entries::heap_in))]
pub(crate) fn heap_in(entries: &[&str]) -> u64
    ensures value { result ≡ heap_in (map (λ s. s.now) entries.now) }
    ensures high { result ≤ MAX_BYTE_SIZE }
{
    match last_value(HEAP_SIZE, entries) {
        Some(value) => size_from(1, value.as_bytes()).unwrap_or(DEFAULT_HEAP_SIZE),
        None => DEFAULT_HEAP_SIZE,
    }
}

/// The greatest number of buckets of an answer: the last `search.max_buckets`, or 65,536.
#[tactic(auto, unfolding(crate::specs::Entries::max_buckets_in))]
pub(crate) fn max_buckets_in(entries: &[&str]) -> u64
    ensures value { result ≡ max_buckets_in (map (λ s. s.now) entries.now) }
    ensures low { 1 ≤ result }
    ensures high { result ≤ GREATEST_MAX_BUCKETS }
{
    match last_value(MAX_BUCKETS, entries) {
        Some(value) => number_in(1, GREATEST_MAX_BUCKETS, value.as_bytes()).unwrap_or(
            DEFAULT_MAX_BUCKETS,
        ),
        None => DEFAULT_MAX_BUCKETS,
    }
}

/// The bytes of the last entry with this key, or a percentage of the heap.
#[tactic(auto, unfolding(crate::specs::Entries::limit_in))]
fn limit_in(key: &str, percent: u64, heap: u64, entries: &[&str]) -> u64
    requires share { percent ≤ 100 }
    requires heap { heap ≤ MAX_BYTE_SIZE }
    ensures value { result ≡ limit_in key.now percent heap (map (λ s. s.now) entries.now) }
    ensures high { result ≤ MAX_BYTE_SIZE }
{
    match last_value(key, entries) {
        Some(value) => {
            bytes_in(
                heap,
                amount_of(value.as_bytes()).unwrap_or(Amount::Percent(percent)),
            )
        }
        None => bytes_in(heap, Amount::Percent(percent)),
    }
}

/// The limits of the breakers.
#[tactic(auto, unfolding(crate::specs::Entries::limits_in))]
pub(crate) fn limits_in(entries: &[&str]) -> Limits
    ensures value { result ≡ limits_in (map (λ s. s.now) entries.now) }
    ensures high { AreLimits result }
{
    let heap = heap_in(entries);
    Limits {
        request: limit_in(REQUEST, 60, heap, entries),
        fielddata: limit_in(FIELDDATA, 40, heap, entries),
        inflight: limit_in(INFLIGHT, 100, heap, entries),
        parent: limit_in(TOTAL, 70, heap, entries),
    }
}
