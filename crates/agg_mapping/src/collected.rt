//! What the walk of `properties` collects, in the order of the walk, and its order by path at the end.

ghost use Rattle.std.specs.Prelude.{◌≡◌, ◌+◌, ◌≤◌, [], false, length, IfOk};
ghost use Rattle.agg_model.specs.declared.limits.TheConstants.{MAX_PATHS};

use crate::paths::in_order;
use agg_model::limits::MAX_PATHS;
use agg_model::{List, Text};
use agg_reading::{Found, FoundField, FoundPath};
use std::alloc::{AllocError, Global};

/// What the walk has met, in its order.
#[derive(Drop)]
pub struct Collected {
    pub fields: List<FoundField>,
    pub nested: List<FoundPath>,
    pub objects: List<Text>,
    ghost few: { length fields + length nested ≤ MAX_PATHS },
}

impl Collected {
    ghost use Rattle.agg_reading.specs.Mapping.{nothing_found};
    ghost use Rattle.agg_reading.specs.Properties.{is_full, place, with_object, with_nested};
    ghost use Rattle.agg_mapping.specs.Arranged.{arranged, IsArranged};

    /// Nothing yet; it takes no memory.
    pub(crate) fn new(alloc: Global) -> Self
        ensures { arranged result ≡ nothing_found }
    {
        Collected {
            fields: List::new(alloc),
            nested: List::new(alloc),
            objects: List::new(alloc),
        }
    }

    /// Whether there are as many fields and nested paths as there may be.
    pub(crate) fn is_full(&self) -> bool
        ensures { result ≡ is_full (arranged self.now) }
    {
        self.nested.len() >= MAX_PATHS - self.fields.len()
    }

    /// One more field.
    pub(crate) fn with_field(self, field: FoundField) -> Result<Self, AllocError>
        requires { is_full (arranged self) ≡ false }
        ensures { IfOk result (λ c. arranged c ≡ record {
          fields = place (λ f. f.path) field (arranged self).fields;
          nested = (arranged self).nested;
          objects = (arranged self).objects;
        }) }
    {
        let Collected {
            mut fields,
            nested,
            objects,
        } = self;
        fields.push(field)?;
        Ok(Collected {
            fields,
            nested,
            objects,
        })
    }

    /// One more nested path.
    pub(crate) fn with_nested(
        self,
        alloc: Global,
        within: &str,
        path: &str,
    ) -> Result<Self, AllocError>
        requires { is_full (arranged self) ≡ false }
        ensures { IfOk result (λ c. arranged c ≡ with_nested within.now path.now (arranged self)) }
    {
        let Collected {
            fields,
            mut nested,
            objects,
        } = self;
        nested.push(FoundPath {
            path: Text::of(alloc, path)?,
            within: Text::of(alloc, within)?,
        })?;
        Ok(Collected {
            fields,
            nested,
            objects,
        })
    }

    /// One more plain object.
    pub(crate) fn with_object(self, alloc: Global, path: &str) -> Result<Self, AllocError>
        ensures { IfOk result (λ c. arranged c ≡ with_object path.now (arranged self)) }
    {
        let Collected {
            fields,
            nested,
            mut objects,
        } = self;
        objects.push(Text::of(alloc, path)?)?;
        Ok(Collected {
            fields,
            nested,
            objects,
        })
    }

    /// All of it in byte order of the paths.
    pub(crate) fn into_found(self) -> Result<Found, AllocError>
        ensures found { IfOk result (λ found. found ≡ arranged self) }
        ensures ordered { IfOk result IsArranged }
    {
        let Collected {
            fields,
            nested,
            objects,
        } = self;
        Ok(Found {
            fields: in_order(fields)?,
            nested: in_order(nested)?,
            objects: in_order(objects)?,
        })
    }
}
