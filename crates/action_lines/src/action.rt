//! One action line.

ghost use Rattle.std.specs.Prelude.{◌≡◌, ◌≢◌, [], IfErr};
ghost use Rattle.agg_reading.specs.declared.fault.RequestFault.TheVariants.{NotJson};
ghost use Rattle.serde_json.specs.Data.{object, member, no_members};
ghost use Rattle.lent_json.specs.View.{view, members_view};
ghost use Rattle.agg_reading.specs.Reading.{Gives, refuse};
ghost use Rattle.agg_reading.specs.Action.{action_at, action_named, action_value_at, heading_at};

use crate::label::{id_or, label_in, routing_or};
use crate::members::is_plain;
use agg_model::ActionKind;
use agg_model::script_refusal::{MALFORMED_ACTION, UPDATE_NOT_SUPPORTED};
use agg_reading::{Heading, RequestFault};
use json_walk::At;
use lent_json::{Lent, Scratch, reading};
use std::alloc::Global;

/// The refusal of an action line that is none.
pub(crate) const MALFORMED: u16 = MALFORMED_ACTION as u16;

/// A refusal of this number; those of action lines have no pointer.
pub(crate) fn refuse<T>(alloc: Global, code: u16) -> Result<T, RequestFault>
    ensures { Gives (λ x. x) result (refuse code []) }
{
    At::Start("").refuse(alloc, code)
}

/// The action of this name.
#[tactic(auto, unfolding(agg_reading::specs::Action::action_named))]
fn action_named(name: &str) -> Option<ActionKind>
    ensures { result ≡ action_named name.now }
{
    match name {
        "index" => Some(ActionKind::Index),
        "create" => Some(ActionKind::Create),
        "delete" => Some(ActionKind::Delete),
        _ => None,
    }
}

/// What the members of an action of this kind say.
#[tactic(auto, unfolding(agg_reading::specs::Action::heading_at))]
fn heading<'a>(
    alloc: Global,
    index: &str,
    before: u64,
    kind: ActionKind,
    members: &[(&'a str, Lent<'a>)],
) -> Result<Heading, RequestFault>
    ensures { Gives (λ x. x) result (heading_at index.now before kind (members_view members.now)) }
{
    if !is_plain(index, members) {
        return refuse(alloc, MALFORMED);
    }
    let given = label_in(alloc, "_id", members)?;
    let id = id_or(alloc, kind, before, given)?;
    let given = label_in(alloc, "routing", members)?;
    let routing = routing_or(alloc, &id, given)?;
    Ok(Heading { kind, id, routing })
}

/// The action of this name, with these members.
#[tactic(auto, unfolding(agg_reading::specs::Action::action_value_at, agg_reading::specs::Json::object_at, agg_reading::specs::Json::sole_at))]
fn named_action<'a>(
    alloc: Global,
    index: &str,
    before: u64,
    name: &str,
    members: &[(&'a str, Lent<'a>)],
) -> Result<Heading, RequestFault>
    ensures { Gives (λ x. x) result
        (action_value_at index.now before (object (member name.now (object (members_view members.now)) no_members))) }
{
    if name == "update" {
        return refuse(alloc, u16::from(UPDATE_NOT_SUPPORTED));
    }
    match action_named(name) {
        None => refuse(alloc, MALFORMED),
        Some(kind) => heading(alloc, index, before, kind, members),
    }
}

/// The action that the only member of a line is.
#[tactic(auto, unfolding(agg_reading::specs::Action::action_value_at, agg_reading::specs::Json::object_at, agg_reading::specs::Json::sole_at))]
fn only_action(
    alloc: Global,
    index: &str,
    before: u64,
    name: &str,
    value: &Lent<'_>,
) -> Result<Heading, RequestFault>
    ensures { Gives (λ x. x) result
        (action_value_at index.now before (object (member name.now (view value.now) no_members))) }
{
    match value {
        Lent::Object(members) => named_action(alloc, index, before, name, members.as_slice()),
        _ => refuse(alloc, MALFORMED),
    }
}

/// The text of a name, which is UTF-8 wherever it stands.
fn text_of<'a>(name: &&'a str) -> &'a str
    ensures { result.now ≡ name.now.now }
{
    *name
}

/// The action that the members of a line are.
#[tactic(auto, unfolding(agg_reading::specs::Action::action_value_at, agg_reading::specs::Json::object_at, agg_reading::specs::Json::sole_at))]
fn action_of_members<'a>(
    alloc: Global,
    index: &str,
    before: u64,
    members: &[(&'a str, Lent<'a>)],
) -> Result<Heading, RequestFault>
    ensures { Gives (λ x. x) result (action_value_at index.now before (object (members_view members.now))) }
{
    if members.len() != 1 {
        return refuse(alloc, MALFORMED);
    }
    let (name, value) = &members[0];
    only_action(alloc, index, before, text_of(name), value)
}

/// The action that a value is.
#[tactic(auto, unfolding(agg_reading::specs::Action::action_value_at, agg_reading::specs::Json::object_at, agg_reading::specs::Json::sole_at))]
fn action_value(
    alloc: Global,
    index: &str,
    before: u64,
    value: &Lent<'_>,
) -> Result<Heading, RequestFault>
    ensures { Gives (λ x. x) result (action_value_at index.now before (view value.now)) }
{
    match value {
        Lent::Object(members) => action_of_members(alloc, index, before, members.as_slice()),
        _ => refuse(alloc, MALFORMED),
    }
}

/// What the bytes of an action line say, where `before` actions come before it and `index` is the name of the index.
///
/// An `update` is refused with `UPDATE_NOT_SUPPORTED`, and all else that is no action with `MALFORMED_ACTION`, both
/// without a pointer: bytes that are no JSON (RFC 8259), an object with no member or more than one, an `_index` of
/// another name, an id that is empty or longer than `MAX_ID` bytes, a delete without an id, and a `pipeline`, a version
/// or a sequence number. So an action has an id of 1 to `MAX_ID` bytes, made from `before` where it gives none, and a
/// routing, its id where it gives none. Members of other names have no effect. `Memory` may come in the place of any
/// refusal.
///
/// The scratch is kept from one line to the next. It grows to the longest, and nothing else of a line stays in it.
#[tactic(auto, unfolding(agg_reading::specs::Action::action_at))]
pub fn action_with(
    alloc: Global,
    index: &str,
    before: u64,
    line: &[u8],
    scratch: &mut Scratch,
) -> Result<Heading, RequestFault>
    ensures action { Gives (λ heading. heading) result (action_at index.now before line.now) }
    ensures json { IfErr result (λ e. e ≢ NotJson) }
{
    match reading(alloc, line, scratch)? {
        None => refuse(alloc, MALFORMED),
        Some(value) => action_value(alloc, index, before, &value),
    }
}

/// The same with a scratch of its own, for a single line.
pub fn action_of(
    alloc: Global,
    index: &str,
    before: u64,
    line: &[u8],
) -> Result<Heading, RequestFault>
    ensures action { Gives (λ heading. heading) result (action_at index.now before line.now) }
    ensures json { IfErr result (λ e. e ≢ NotJson) }
{
    let mut scratch = Scratch::new(alloc);
    action_with(alloc, index, before, line, &mut scratch)
}
