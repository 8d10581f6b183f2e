//! The members of an action.

ghost use Rattle.std.specs.Prelude.{◌≡◌, codes, option_map};
ghost use Rattle.lent_json.specs.View.{view, members_view};
ghost use Rattle.agg_reading.specs.Action.{is_name_of, is_plain, set_member};

use lent_json::{Lent, member};

/// The member of this name; none where it is absent or `null`.
#[tactic(auto, unfolding(agg_reading::specs::Action::set_member))]
pub(crate) fn set_member<'v, 'a>(
    members: &'v [(&'a str, Lent<'a>)],
    name: &str,
) -> Option<&'v Lent<'a>>
    ensures { option_map (λ v. view v.now) result ≡ set_member name.now (members_view members.now) }
{
    match member(members, name) {
        None | Some(Lent::Null) => None,
        Some(value) => Some(value),
    }
}

/// Whether `_index` is not set, or is the name of this index.
fn is_name_of<'a>(index: &str, members: &[(&'a str, Lent<'a>)]) -> bool
    ensures { result ≡ is_name_of index.now (set_member (codes "_index") (members_view members.now)) }
{
    match set_member(members, "_index") {
        None => true,
        Some(Lent::String(name)) => *name == index,
        Some(_) => false,
    }
}

/// Whether an action asks for this index and for none of what ingest pipelines and concurrent writers use.
#[tactic(auto, unfolding(agg_reading::specs::Action::is_plain))]
pub(crate) fn is_plain<'a>(index: &str, members: &[(&'a str, Lent<'a>)]) -> bool
    ensures { result ≡ is_plain index.now (members_view members.now) }
{
    is_name_of(index, members)
        && set_member(members, "if_primary_term").is_none()
        && set_member(members, "if_seq_no").is_none()
        && set_member(members, "pipeline").is_none()
        && set_member(members, "version").is_none()
        && set_member(members, "version_type").is_none()
}
