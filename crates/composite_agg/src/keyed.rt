//! Items that have a composite key.
ghost use Rattle.std.specs.Prelude.{◌≡◌};
ghost use Rattle.agg_model.specs.declared.key.Key.{Key as AnyKey};

use agg_model::{Bucket, Key};

/// What has a composite key.
pub trait HasKey {
    /// The key.
    ghost key_of: { Self → AnyKey };

    /// The key.
    fn key(&self) -> &Key
        ensures { result.now ≡ key_of self.now };
}

impl HasKey for Bucket {
    ghost key_of = { λ b. b.key };

    fn key(&self) -> &Key {
        &self.key
    }
}
