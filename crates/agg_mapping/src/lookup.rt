//! Look-ups of paths in a mapping that is lent for one look-up.

ghost use Rattle.std.specs.Prelude.{◌≡◌, option_map};
ghost use Rattle.agg_reading.specs.Fields.{field_from, nested_from};
ghost use Rattle.agg_model.specs.MappingOrder.{IsOrdered};

use crate::ordered::OrderedMapping;
use agg_model::Mapping;

/// The place of the field with this path among the fields; none exactly where no field has it.
pub fn field(mapping: &Mapping, path: &[u8]) -> Option<u32>
    requires { IsOrdered mapping.now }
    ensures { result ≡ option_map (λ f. f.0) (field_from 0 mapping.now.fields path.now) }
{
    OrderedMapping::of(mapping).field(path)
}

/// The place of this path among the nested paths; none exactly where there is no such nested path.
pub fn nested(mapping: &Mapping, path: &[u8]) -> Option<u32>
    requires { IsOrdered mapping.now }
    ensures { result ≡ option_map (λ p. p.0) (nested_from 0 mapping.now.nested path.now) }
{
    OrderedMapping::of(mapping).nested(path)
}
