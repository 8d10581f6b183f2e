ghost use Rattle.std.specs.Prelude.{◌≡◌, IfOk};

use crate::boxed::Boxed;
use crate::bytes::Bytes;
use crate::list::List;
use crate::text::Text;
use std::alloc::{AllocError, Global};

/// Values that can be copied where memory lasts. A copy equals what it copies.
pub trait Copying: Drop {
    /// The copy.
    fn copy(&self, alloc: Global) -> Result<Self, AllocError>
        ensures { IfOk result (λ c. c ≡ self.now) };
}

impl Copying for u32 {
    fn copy(&self, _alloc: Global) -> Result<Self, AllocError> {
        Ok(*self)
    }
}

impl Copying for Text {
    fn copy(&self, alloc: Global) -> Result<Self, AllocError> {
        Text::of(alloc, self.as_str())
    }
}

impl Copying for Bytes {
    fn copy(&self, alloc: Global) -> Result<Self, AllocError> {
        Bytes::of(alloc, self.as_slice())
    }
}

impl<T: Copying> Copying for List<T> {
    fn copy(&self, alloc: Global) -> Result<Self, AllocError> {
        let mut copied = List::new(alloc);
        for item in self.as_slice() {
            copied.push(item.copy(alloc)?)?;
        }
        Ok(copied)
    }
}

impl<T: Copying> Copying for Boxed<T> {
    fn copy(&self, alloc: Global) -> Result<Self, AllocError> {
        Boxed::new(alloc, self.get().copy(alloc)?)
    }
}

impl<T: Copying> Copying for Option<T> {
    fn copy(&self, alloc: Global) -> Result<Self, AllocError> {
        match self {
            None => Ok(None),
            Some(value) => Ok(Some(value.copy(alloc)?)),
        }
    }
}
