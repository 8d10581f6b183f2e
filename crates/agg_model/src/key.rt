ghost use Rattle.std.specs.Prelude.{◌≡◌, IfOk};

use crate::copying::Copying;
use crate::list::List;
use crate::text::Text;
use std::alloc::{AllocError, Global};

/// The key of a bucket. Keys have one order: null, whole numbers by value, false before true, words by their
/// bytes, fixed buckets by number, and composite keys part by part.
#[derive(Drop, PartialEq, Eq, PartialOrd, Ord)]
pub enum Key {
    /// The part of a composite key whose source has no value.
    Null,
    Whole(i128),
    Flag(bool),
    Word(Text),
    /// A bucket that exists from the start: a filter's place, or 0 where the kind has one bucket.
    Fixed(u32),
    /// A composite key, one part for each source.
    Many(List<Key>),
}

#[cycle(key)]
fn copy_keys(alloc: Global, keys: &List<Key>) -> Result<List<Key>, AllocError>
    ensures { IfOk result (λ c. c ≡ keys.now) }
{
    let mut copied = List::new(alloc);
    for key in keys.as_slice() {
        copied.push(key.copy(alloc)?)?;
    }
    Ok(copied)
}

impl Copying for Key {
    #[cycle(key)]
    fn copy(&self, alloc: Global) -> Result<Self, AllocError> {
        match self {
            Key::Whole(n) => Ok(Key::Whole(*n)),
            Key::Flag(b) => Ok(Key::Flag(*b)),
            Key::Word(w) => Ok(Key::Word(w.copy(alloc)?)),
            Key::Null => Ok(Key::Null),
            Key::Fixed(n) => Ok(Key::Fixed(*n)),
            Key::Many(keys) => Ok(Key::Many(copy_keys(alloc, keys)?)),
        }
    }
}
