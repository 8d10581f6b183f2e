//! Ids and routings.

ghost use Rattle.std.specs.Prelude.{◌≡◌, IfOk, Some};
ghost use Rattle.lent_json.specs.View.{view, members_view};
ghost use Rattle.agg_reading.specs.Reading.{Gives};
ghost use Rattle.agg_reading.specs.Action.{label_of, label_in, id_or, routing_or};

use crate::action::{MALFORMED, refuse};
use crate::members::set_member;
use agg_model::limits::MAX_ID;
use agg_model::{ActionKind, Copying, Text};
use agg_reading::RequestFault;
use lent_json::Lent;
use std::alloc::{AllocError, Global};

/// A text, or a whole number as its decimal text. Any other value is refused.
fn label_of(alloc: Global, value: &Lent<'_>) -> Result<Text, RequestFault>
    ensures { Gives Some result (label_of (Some (view value.now))) }
{
    match value {
        Lent::String(text) => Ok(Text::of(alloc, text)?),
        Lent::Number(number) => match number.as_i128() {
            Some(n) => Ok(Text::from_string(n.to_string(alloc)?)),
            None => refuse(alloc, MALFORMED),
        },
        _ => refuse(alloc, MALFORMED),
    }
}

/// The text or whole number in the member of this name; none where it is absent or `null`.
#[tactic(auto, unfolding(agg_reading::specs::Action::label_in))]
pub(crate) fn label_in<'a>(
    alloc: Global,
    name: &str,
    members: &[(&'a str, Lent<'a>)],
) -> Result<Option<Text>, RequestFault>
    ensures { Gives (λ x. x) result (label_in name.now (members_view members.now)) }
{
    match set_member(members, name) {
        None => Ok(None),
        Some(value) => Ok(Some(label_of(alloc, value)?)),
    }
}

/// The id of an action: what it gives, or where it gives none, `_auto_` and the number of actions before it.
/// An id that is empty or longer than `MAX_ID` bytes is refused, and a delete without one.
pub(crate) fn id_or(
    alloc: Global,
    kind: ActionKind,
    before: u64,
    given: Option<Text>,
) -> Result<Text, RequestFault>
    ensures { Gives (λ x. x) result (id_or kind before given) }
{
    match (kind, given) {
        (ActionKind::Delete, None) => refuse(alloc, MALFORMED),
        (ActionKind::Index | ActionKind::Create, None) => {
            Ok(Text::from_string(format!(in alloc; "_auto_{before}")?))
        }
        (_, Some(id)) => {
            if 0 < id.len() && id.len() <= MAX_ID {
                Ok(id)
            } else {
                refuse(alloc, MALFORMED)
            }
        }
    }
}

/// The routing of an action: what it gives, or where it gives none, its id.
pub(crate) fn routing_or(alloc: Global, id: &Text, given: Option<Text>) -> Result<Text, AllocError>
    ensures { IfOk result (λ routing. routing ≡ routing_or id.now given) }
{
    match given {
        None => id.copy(alloc),
        Some(routing) => Ok(routing),
    }
}
