//! A mapping that is lent with the order of its paths, and what is looked up in it.

ghost use Rattle.std.specs.Prelude.{◌≡◌, ◌+◌, ◌<◌, IfSome, length, option_map};
ghost use Rattle.agg_model.specs.declared.mapping.Mapping.{Mapping};
ghost use Rattle.agg_reading.specs.Fields.{field_from, nested_from};
ghost use Rattle.agg_model.specs.Contexts.{encloses, is_in_context};
ghost use Rattle.agg_reading.specs.Json.{is_among};
ghost use Rattle.agg_model.specs.MappingOrder.{IsOrdered};

use crate::paths::{first, is_beneath};
use agg_model::limits::MAX_PATHS;
use agg_model::{Field, Mapping, NestedPath};
use std::marker::Model;

/// A mapping that was read, lent: its paths ascend, so that each is found by binary search, and there are at most
/// `MAX_PATHS` fields and nested paths. Contracts see the mapping.
#[derive(Drop)]
pub struct OrderedMapping<'m> {
    mapping: &'m Mapping,
}

impl<'m> Model for OrderedMapping<'m> {
    ghost Value = { Mapping };

    ghost view = { λ m. m.mapping.now };

    ghost invariant = { λ m. IsOrdered m.mapping.now };
}

impl<'m> OrderedMapping<'m> {
    /// Lends a mapping of an index line or of `mapping_of`.
    pub fn of(mapping: &'m Mapping) -> Self
        requires { IsOrdered mapping.now }
        ensures { result ≡ mapping.now }
    {
        OrderedMapping { mapping }
    }

    /// Whether a name that the mapping lacks refuses a document.
    pub fn is_strict(&self) -> bool
        ensures { result ≡ self.now.strict }
    {
        self.mapping.strict
    }

    /// The field with this path and its place; none where no field has it.
    pub fn find_field(&self, path: &[u8]) -> Option<(u32, &'m Field)>
        ensures { option_map (λ f. (f.0, f.1.now)) result ≡ field_from 0 self.now.fields path.now }
    {
        let (place, found) = first(self.mapping.fields.as_slice(), path)?;
        Some((place as u32, found))
    }

    /// The nested path with this path and its place, which is below `MAX_PATHS`; none where there is none.
    pub fn find_nested(&self, path: &[u8]) -> Option<(u32, &'m NestedPath)>
        ensures value { option_map (λ p. (p.0, p.1.now)) result ≡ nested_from 0 self.now.nested path.now }
        ensures within { IfSome result (λ p. p.0 < length self.now.nested) }
        ensures few { IfSome result (λ p. p.0 < MAX_PATHS) }
    {
        let (place, found) = first(self.mapping.nested.as_slice(), path)?;
        Some((place as u32, found))
    }

    /// The place of the field with this path among the fields; none exactly where no field has it.
    pub fn field(&self, path: &[u8]) -> Option<u32>
        ensures { result ≡ option_map (λ f. f.0) (field_from 0 self.now.fields path.now) }
    {
        let (place, _) = self.find_field(path)?;
        Some(place)
    }

    /// The place of this path among the nested paths; none exactly where there is no such nested path.
    pub fn nested(&self, path: &[u8]) -> Option<u32>
        ensures { result ≡ option_map (λ p. p.0) (nested_from 0 self.now.nested path.now) }
    {
        let (place, _) = self.find_nested(path)?;
        Some(place)
    }

    /// The context of the rows at the nested path of this place.
    pub fn context_of(&self, place: u32) -> u32
        requires { place < length self.now.nested }
        ensures { result ≡ place + 1 }
    {
        // A mapping is opened for its bound on nested paths, by which the sum fits.
        let _ = &self.mapping;
        place + 1
    }

    /// Whether this is the path of a plain object.
    pub fn is_object(&self, path: &[u8]) -> bool
        ensures { result ≡ is_among self.now.objects path.now }
    {
        first(self.mapping.objects.as_slice(), path).is_some()
    }

    /// Whether a path lies strictly beneath a context: 0 is the root, i + 1 the i-th nested path.
    #[tactic(auto, unfolding(agg_model::specs::Contexts::is_in_context))]
    pub fn is_in_context(&self, context: u32, path: &[u8]) -> bool
        ensures { result ≡ is_in_context self.now.nested context path.now }
    {
        if context == 0 {
            return true;
        }
        match self.mapping.nested.get(context as usize - 1) {
            Some(outer) => is_beneath(outer.path.as_str().as_bytes(), path),
            None => false,
        }
    }

    /// Whether a context lies strictly beneath a path; the root lies beneath none.
    #[tactic(auto, unfolding(agg_model::specs::Contexts::encloses))]
    pub fn encloses(&self, path: &[u8], context: u32) -> bool
        ensures { result ≡ encloses self.now.nested path.now context }
    {
        if context == 0 {
            return false;
        }
        match self.mapping.nested.get(context as usize - 1) {
            Some(inner) => is_beneath(path, inner.path.as_str().as_bytes()),
            None => false,
        }
    }
}
