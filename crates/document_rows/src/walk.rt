//! The walk of an object's members, in byte order of their names. A function here is lent where the walk stands; what
//! it leaves after a refusal is of no use to anybody.

ghost use Rattle.std.specs.Prelude.{◌≡◌, ◌++◌, ◌∷◌, ◌<◌, [], OnOk, length, string_bytes};
ghost use Rattle.serde_json.specs.Data.{object};
ghost use Rattle.lent_json.specs.View.{view, items_view, members_view};
ghost use Rattle.agg_reading.specs.Document.{with_scalar, leaf_at, value_at, items_at, members_at, member_at};
ghost use Rattle.document_rows.specs.Faults.{Gives};
ghost use Rattle.document_rows.specs.Roles.{IsRoleIn};
ghost use Rattle.document_rows.specs.States.{state_of, nested_at};

use crate::draft::RowDraft;
use crate::fault::ItemFault;
use crate::field_value::scalar;
use crate::refusal::refuse;
use crate::roles::role_of;
use agg_mapping::OrderedMapping;
use agg_model::Scalar;
use agg_model::item_refusal::{
    STRICT_MAPPING, TOO_MANY_FIELD_VALUES, TOO_MANY_NESTED_OBJECTS, WRONG_FIELD_TYPE,
};
use agg_model::limits::{MAX_FIELD_VALUES, MAX_NESTED_OBJECTS};
use agg_reading::Role;
use lent_json::Lent;
use std::alloc::Global;
use std::mem;

/// Where the walk stands.
#[derive(Drop)]
pub(crate) struct Walked {
    /// The row that is walked.
    pub(crate) row: RowDraft,
    /// How many nested objects of the document were met.
    pub(crate) met: u32,
    /// The path of the value that is walked. It grows on the way down and is cut back on the way up.
    pub(crate) path: String,
}

/// One more value of a field, unless `ignore_above` left it out; the value past the last that a row may have is
/// refused with `TOO_MANY_FIELD_VALUES`.
#[tactic(auto, unfolding(agg_reading::specs::Document::with_scalar))]
fn with_scalar(
    alloc: Global,
    field: u32,
    walked: &mut Walked,
    value: Option<Scalar>,
) -> Result<(), ItemFault>
    ensures value { Gives (λ _. state_of walked.new) result (with_scalar field (string_bytes walked.old.path) (state_of walked.old) value) }
    ensures path { OnOk result (string_bytes walked.new.path ≡ string_bytes walked.old.path) }
{
    let Some(value) = value else {
        return Ok(());
    };
    if walked.row.add_value(alloc, field, MAX_FIELD_VALUES, value)? {
        Ok(())
    } else {
        refuse(alloc, TOO_MANY_FIELD_VALUES, walked.path.as_str())
    }
}

/// A value that is neither null nor a list nor an object: `WRONG_FIELD_TYPE` where the path is no field.
#[tactic(auto, unfolding(agg_reading::specs::Document::leaf_at))]
fn leaf(alloc: Global, role: Role, walked: &mut Walked, value: &Lent<'_>) -> Result<(), ItemFault>
    ensures value { Gives (λ _. state_of walked.new) result (leaf_at role (string_bytes walked.old.path) (state_of walked.old) (view value.now)) }
    ensures path { OnOk result (string_bytes walked.new.path ≡ string_bytes walked.old.path) }
{
    match role {
        Role::Leaf {
            field,
            kind,
            ignore_above,
        } => {
            let found = scalar(alloc, kind, ignore_above, walked.path.as_str(), value)?;
            with_scalar(alloc, field, walked, found)
        }
        Role::Plain | Role::Nested(_) => refuse(alloc, WRONG_FIELD_TYPE, walked.path.as_str()),
        Role::Unmapped => Ok(()),
    }
}

/// A value by the role of its path: null stands for nothing, and a list for its elements.
#[cycle(walk)]
fn value(
    alloc: Global,
    mapping: &OrderedMapping<'_>,
    role: Role,
    context: u32,
    walked: &mut Walked,
    value: &Lent<'_>,
) -> Result<(), ItemFault>
    requires role { IsRoleIn mapping.now role }
    ensures value { Gives (λ _. state_of walked.new) result
        (value_at mapping.now role context (string_bytes walked.old.path) (state_of walked.old) (view value.now)) }
    ensures path { OnOk result (string_bytes walked.new.path ≡ string_bytes walked.old.path) }
{
    match value {
        Lent::Null => Ok(()),
        Lent::Array(found) => items(alloc, &*mapping, role, context, walked, found),
        Lent::Object(found) => object(alloc, &*mapping, role, context, walked, found),
        Lent::Bool(_) | Lent::Number(_) | Lent::String(_) => leaf(alloc, role, walked, value),
    }
}

/// The elements of a list in order, all by the role of the list's path.
#[cycle(walk)]
fn items(
    alloc: Global,
    mapping: &OrderedMapping<'_>,
    role: Role,
    context: u32,
    walked: &mut Walked,
    items: &Vec<Lent<'_>>,
) -> Result<(), ItemFault>
    requires role { IsRoleIn mapping.now role }
    ensures value { Gives (λ _. state_of walked.new) result
        (items_at mapping.now role context (string_bytes walked.old.path) (state_of walked.old) (items_view items.now.items)) }
    ensures path { OnOk result (string_bytes walked.new.path ≡ string_bytes walked.old.path) }
{
    for item in items {
        value(alloc, &*mapping, role, context, &mut *walked, item)?;
    }
    Ok(())
}

/// An object by the role of its path: `WRONG_FIELD_TYPE` where the path is a field.
#[cycle(walk)]
fn object(
    alloc: Global,
    mapping: &OrderedMapping<'_>,
    role: Role,
    context: u32,
    walked: &mut Walked,
    members: &Vec<(&str, Lent<'_>)>,
) -> Result<(), ItemFault>
    requires role { IsRoleIn mapping.now role }
    ensures value { Gives (λ _. state_of walked.new) result
        (value_at mapping.now role context (string_bytes walked.old.path) (state_of walked.old) (object (members_view members.now.items))) }
    ensures path { OnOk result (string_bytes walked.new.path ≡ string_bytes walked.old.path) }
{
    match role {
        Role::Leaf { .. } => refuse(alloc, WRONG_FIELD_TYPE, walked.path.as_str()),
        Role::Plain => inner(alloc, &*mapping, context, walked, members),
        Role::Nested(place) => nested(alloc, &*mapping, place, walked, members),
        Role::Unmapped => Ok(()),
    }
}

/// The members of the object at the path.
#[cycle(walk)]
fn inner(
    alloc: Global,
    mapping: &OrderedMapping<'_>,
    context: u32,
    walked: &mut Walked,
    found: &Vec<(&str, Lent<'_>)>,
) -> Result<(), ItemFault>
    ensures value { Gives (λ _. state_of walked.new) result
        (members_at mapping.now context (string_bytes walked.old.path ++ 46 ∷ []) (state_of walked.old) (members_view found.now.items)) }
    ensures path { OnOk result (string_bytes walked.new.path ≡ string_bytes walked.old.path) }
{
    let end = walked.path.len();
    walked.path.push_str(".")?;
    members(alloc, &*mapping, context, &mut *walked, found)?;
    walked.path.truncate(end);
    Ok(())
}

/// An object that is a row of its own beneath the row that is walked: `TOO_MANY_NESTED_OBJECTS` where the document has
/// too many.
#[tactic(auto, unfolding(agg_reading::specs::Document::around))]
#[cycle(walk)]
fn nested(
    alloc: Global,
    mapping: &OrderedMapping<'_>,
    place: u32,
    walked: &mut Walked,
    members: &Vec<(&str, Lent<'_>)>,
) -> Result<(), ItemFault>
    requires { place < length mapping.now.nested }
    ensures value { Gives (λ _. state_of walked.new) result
        (nested_at mapping.now place (string_bytes walked.old.path) (state_of walked.old) (members_view members.now.items)) }
    ensures path { OnOk result (string_bytes walked.new.path ≡ string_bytes walked.old.path) }
{
    if walked.met >= MAX_NESTED_OBJECTS {
        return refuse(alloc, TOO_MANY_NESTED_OBJECTS, walked.path.as_str());
    }
    walked.met += 1;
    let around = mem::replace(&mut walked.row, RowDraft::new(alloc));
    let context = mapping.context_of(place);
    inner(alloc, &*mapping, context, &mut *walked, members)?;
    let ended = mem::replace(&mut walked.row, around);
    walked.row.add_row(alloc, place, ended.finish(alloc)?)?;
    Ok(())
}

/// A member by its path: an unmapped one is passed over, or refused with `STRICT_MAPPING` where the mapping is strict.
#[cycle(walk)]
fn member(
    alloc: Global,
    mapping: &OrderedMapping<'_>,
    context: u32,
    walked: &mut Walked,
    found: &Lent<'_>,
) -> Result<(), ItemFault>
    ensures value { Gives (λ _. state_of walked.new) result
        (member_at mapping.now context (string_bytes walked.old.path) (state_of walked.old) (view found.now)) }
    ensures path { OnOk result (string_bytes walked.new.path ≡ string_bytes walked.old.path) }
{
    match role_of(&*mapping, context, walked.path.as_bytes()) {
        Role::Unmapped => {
            if mapping.is_strict() {
                return refuse(alloc, STRICT_MAPPING, walked.path.as_str());
            }
            Ok(())
        }
        role => value(alloc, &*mapping, role, context, walked, found),
    }
}

/// The text of a name, which is UTF-8 wherever it stands.
fn text_of<'a>(name: &&'a str) -> &'a str
    ensures { result.now ≡ name.now.now }
{
    *name
}

/// The members of an object whose members have paths that begin with where the walk stands.
#[cycle(walk)]
pub(crate) fn members(
    alloc: Global,
    mapping: &OrderedMapping<'_>,
    context: u32,
    walked: &mut Walked,
    members: &Vec<(&str, Lent<'_>)>,
) -> Result<(), ItemFault>
    ensures value { Gives (λ _. state_of walked.new) result
        (members_at mapping.now context (string_bytes walked.old.path) (state_of walked.old) (members_view members.now.items)) }
    ensures path { OnOk result (string_bytes walked.new.path ≡ string_bytes walked.old.path) }
{
    let end = walked.path.len();
    for (name, value) in members {
        walked.path.push_str(text_of(name))?;
        member(alloc, &*mapping, context, &mut *walked, value)?;
        walked.path.truncate(end);
    }
    Ok(())
}
