//! Paths, items that have one, and the search for one among many.

ghost use Rattle.std.specs.Prelude.{◌≡◌, ◌<◌, [], ℕ, List, IfOk, IfSome, length, option_map};
ghost use Rattle.list_laws.specs.Sorting.{sorted};
ghost use Rattle.agg_model.specs.Contexts.{is_beneath};
ghost use Rattle.agg_reading.specs.Properties.{by_path};
ghost use Rattle.agg_model.specs.MappingOrder.{AscendsBy};
ghost use Rattle.agg_mapping.specs.Paths.{first_from};

use agg_model::{Field, List as Items, NestedPath, Text};
use agg_reading::{FoundField, FoundPath};
use std::alloc::AllocError;

/// What has a path: names from the root, joined by dots.
pub trait HasPath {
    /// The bytes of the path.
    ghost path_of: { Self → List ℕ };

    /// The bytes of the path.
    fn path(&self) -> &[u8]
        ensures { result.now ≡ path_of self.now };
}

impl HasPath for Field {
    ghost path_of = { λ f. f.path };

    fn path(&self) -> &[u8] {
        self.path.as_str().as_bytes()
    }
}

impl HasPath for NestedPath {
    ghost path_of = { λ p. p.path };

    fn path(&self) -> &[u8] {
        self.path.as_str().as_bytes()
    }
}

impl HasPath for FoundField {
    ghost path_of = { λ f. f.path };

    fn path(&self) -> &[u8] {
        self.path.as_str().as_bytes()
    }
}

impl HasPath for FoundPath {
    ghost path_of = { λ p. p.path };

    fn path(&self) -> &[u8] {
        self.path.as_str().as_bytes()
    }
}

impl HasPath for Text {
    ghost path_of = { λ p. p };

    fn path(&self) -> &[u8] {
        self.as_str().as_bytes()
    }
}

/// Whether a path lies strictly beneath another: the other's names come first, then a dot. No path lies beneath itself.
pub fn is_beneath(outer: &[u8], path: &[u8]) -> bool
    ensures { result ≡ is_beneath outer.now path.now }
{
    path.starts_with(outer) && path[outer.len()..].starts_with(b".")
}

/// The items in byte order of their paths; those with one path keep their order.
pub(crate) fn in_order<T: HasPath + Drop>(items: Items<T>) -> Result<Items<T>, AllocError>
    ensures value { IfOk result (λ xs. xs ≡ sorted (by_path T.path_of) items) }
    ensures ascends { IfOk result (AscendsBy T.path_of) }
{
    let mut all = items.into_vec();
    all.sort_by(|a, b| a.path().cmp(&b.path()))?;
    Ok(Items::from_vec(all))
}

/// The first item with this path and its place, found by binary search.
pub fn first<'a, T: HasPath>(items: &'a [T], path: &[u8]) -> Option<(usize, &'a T)>
    requires { AscendsBy T.path_of items.now }
    ensures value { option_map (λ p. (p.0, p.1.now)) result ≡ first_from T.path_of 0 items.now path.now }
    ensures within { IfSome result (λ p. p.0 < length items.now) }
{
    let place = items.partition_point(|item| item.path().cmp(&path).is_lt());
    let item = items.get(place)?;
    if item.path() != path {
        return None;
    }
    Some((place, item))
}
