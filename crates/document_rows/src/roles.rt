//! What a path is to the rows of a context.

ghost use Rattle.std.specs.Prelude.{◌≡◌};
ghost use Rattle.agg_reading.specs.Document.{leads_deeper, inner_role, role_of};
ghost use Rattle.document_rows.specs.Roles.{is_deeper, IsRoleIn};

use agg_mapping::OrderedMapping;
use agg_reading::Role;

/// Whether this is a nested path strictly beneath a context.
fn is_deeper(mapping: &OrderedMapping<'_>, context: u32, path: &[u8]) -> bool
    ensures { result ≡ is_deeper mapping.now context path.now }
{
    mapping.nested(path).is_some() && mapping.is_in_context(context, path)
}

/// Whether a path is or lies beneath a nested path that is strictly beneath a context: each front of its parts is
/// looked up, so that it does not matter how many nested paths there are.
fn leads_deeper(mapping: &OrderedMapping<'_>, context: u32, path: &[u8]) -> bool
    ensures { result ≡ leads_deeper mapping.now context path.now }
{
    for (end, byte) in path.iter().enumerate() {
        if *byte == b'.' && is_deeper(mapping, context, &path[..end]) {
            return true;
        }
    }
    is_deeper(mapping, context, path)
}

/// What a path is that is no field of the rows of a context.
fn inner_role(mapping: &OrderedMapping<'_>, context: u32, path: &[u8]) -> Role
    ensures role { result ≡ inner_role mapping.now context path.now }
    ensures known { IsRoleIn mapping.now result }
{
    if mapping.is_object(path) && !leads_deeper(mapping, context, path) {
        return Role::Plain;
    }
    match mapping.find_nested(path) {
        Some((place, found)) if found.parent == context => Role::Nested(place),
        _ => Role::Unmapped,
    }
}

/// What a path is to the rows of a context.
#[tactic(auto, unfolding(agg_reading::specs::Document::role_of))]
pub(crate) fn role_of(mapping: &OrderedMapping<'_>, context: u32, path: &[u8]) -> Role
    ensures role { result ≡ role_of mapping.now context path.now }
    ensures known { IsRoleIn mapping.now result }
{
    match mapping.find_field(path) {
        Some((field, found)) if found.context == context => Role::Leaf {
            field,
            kind: found.kind,
            ignore_above: found.ignore_above,
        },
        _ => inner_role(mapping, context, path),
    }
}
