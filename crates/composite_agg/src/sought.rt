//! Composite keys that are looked for among others.
ghost use Rattle.std.specs.Prelude.{◌≡◌, option_copied, option_map};
ghost use Rattle.agg_model.specs.declared.key.Key.{Key as AnyKey};
ghost use Rattle.bucket_order.specs.Composites.{any_parts_cmp, key_parts, part_cmp};
ghost use Rattle.composite_agg.specs.InOrder.{page_cmp};
ghost use Rattle.composite_agg.specs.Odometer.{chosen_key, shown_key, shown_parts};

use crate::behind::{compare_part, directed_by};
use crate::odometer::{Combinations, Wheel};
use agg_model::{CompositeSource, Key, List};
use bucket_order::compare_composites;
use std::cmp::Ordering;

/// A composite key that is looked for: a key, or the combination of a row that is chosen, of which no key is built.
pub trait Sought {
    /// The key.
    ghost sought: { Self → AnyKey };

    /// How another key stands to it, in the order of the sources.
    fn compare(&self, sources: &List<CompositeSource>, other: &Key) -> Ordering
        ensures { result ≡ page_cmp sources.now other.now (sought self.now) };
}

impl Sought for Key {
    ghost sought = { λ k. k };

    fn compare(&self, sources: &List<CompositeSource>, other: &Key) -> Ordering {
        compare_composites(sources, other, self)
    }
}

impl<'a> Sought for Combinations<'a> {
    ghost sought = { chosen_key };

    fn compare(&self, sources: &List<CompositeSource>, other: &Key) -> Ordering {
        compare_parts(sources.as_slice(), parts_of(other), self.wheels.as_slice())
    }
}

fn parts_of(key: &Key) -> &[Key]
    ensures { result.now ≡ key_parts key.now }
{
    match key {
        Key::Many(parts) => parts.as_slice(),
        Key::Null | Key::Whole(_) | Key::Flag(_) | Key::Word(_) | Key::Fixed(_) => &[],
    }
}

// Part by part, each by the direction of its source. A part that is not there comes last.
fn compare_parts(sources: &[CompositeSource], parts: &[Key], wheels: &[Wheel]) -> Ordering
    ensures { result ≡ any_parts_cmp sources.now parts.now (shown_parts wheels.now) }
{
    for (place, source) in sources.iter().enumerate() {
        let ordering = compare_shown(source.descending, parts.get(place), wheels.get(place));
        if ordering != Ordering::Equal {
            return ordering;
        }
    }
    Ordering::Equal
}

fn compare_shown(descending: bool, part: Option<&Key>, wheel: Option<&Wheel>) -> Ordering
    ensures { result ≡ part_cmp descending (option_copied part.entry) (option_map shown_key (option_copied wheel.entry)) }
{
    match (part, wheel) {
        (None, None) => Ordering::Equal,
        (None, Some(_)) => Ordering::Greater,
        (Some(_), None) => Ordering::Less,
        (Some(part), Some(wheel)) => directed_by(descending, compare_part(part, wheel.part)),
    }
}
