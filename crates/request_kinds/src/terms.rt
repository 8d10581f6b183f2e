//! The kind `terms` ('Terms aggregation').

ghost use Rattle.std.specs.Prelude.{◌≡◌, ◌≤◌, IfOk, IfSome};
ghost use Rattle.serde_json.specs.View.{view, members_view};
ghost use Rattle.json_walk.specs.Places.{pointer};
ghost use Rattle.agg_reading.specs.Reading.{Gives};
ghost use Rattle.agg_reading.specs.Terms.{term_lists_in, term_counts_in, shard_size_of, term_sizes_in, terms_in, terms_at};

use crate::numbers::{choice_in, small_in};
use crate::orders::{orders_in, orders_or};
use agg_mapping::OrderedMapping;
use agg_model::body_refusal::{UNKNOWN_MEMBER, WRONG_TYPE};
use agg_model::limits::MAX_SIZE;
use agg_model::{Field, FieldKind, Kind, List, Probe, Scalar};
use agg_query::{field_in, missing_in, probe_list_in};
use agg_reading::{NamedOrder, RequestFault};
use json_walk::{At, check_names, object, truth_in, whole_in};
use serde_json::{Map, Value};
use std::alloc::Global;

/// What `exclude` and `include` list, in this order. `collect_mode` and `execution_hint` have no effect.
#[tactic(auto, unfolding(agg_reading::specs::Terms::term_lists_in))]
fn term_lists(
    alloc: Global,
    kind: FieldKind,
    at: &At<'_>,
    members: &Map<String, Value>,
) -> Result<(Option<List<Probe>>, Option<List<Probe>>), RequestFault>
    ensures { Gives (λ x. x) result (term_lists_in kind (pointer at.now) (members_view members.now.entries)) }
{
    choice_in(
        alloc,
        &["breadth_first", "depth_first"],
        "collect_mode",
        at,
        members,
    )?;
    let exclude = probe_list_in(alloc, kind, "exclude", at, members)?;
    choice_in(
        alloc,
        &["global_ordinals", "map"],
        "execution_hint",
        at,
        members,
    )?;
    let include = probe_list_in(alloc, kind, "include", at, members)?;
    Ok((exclude, include))
}

/// The least count of a bucket that is shown, the value of rows without one, and the orders.
#[tactic(auto, unfolding(agg_reading::specs::Terms::term_counts_in))]
fn term_counts(
    alloc: Global,
    kind: FieldKind,
    at: &At<'_>,
    members: &Map<String, Value>,
) -> Result<(u64, Option<Scalar>, List<NamedOrder>), RequestFault>
    ensures { Gives (λ x. x) result (term_counts_in kind (pointer at.now) (members_view members.now.entries)) }
{
    let least = whole_in(
        alloc,
        1,
        9_223_372_036_854_775_807,
        "min_doc_count",
        at,
        members,
    )?;
    let missing = missing_in(alloc, kind, at, members)?;
    let order = orders_in(alloc, at, members)?;
    let order = orders_or(alloc, order, "_count", true)?;
    Ok((least.unwrap_or(1), missing, order))
}

/// How many terms a shard answers: what is said, or half as many again as are wanted in all and ten more, and never fewer
/// than are wanted in all.
fn shard_size(size: u32, said: Option<u32>) -> u32
    requires { size ≤ MAX_SIZE }
    ensures { result ≡ shard_size_of size said }
{
    let wanted = match said {
        Some(said) => said,
        None => (u64::from(size) * 3 / 2 + 10) as u32,
    };
    size.max(wanted)
}

/// The size, that of a shard, and whether errors show.
#[tactic(auto, unfolding(agg_reading::specs::Terms::term_sizes_in))]
fn term_sizes(
    alloc: Global,
    at: &At<'_>,
    members: &Map<String, Value>,
) -> Result<(u32, u32, bool), RequestFault>
    ensures { Gives (λ x. x) result (term_sizes_in (pointer at.now) (members_view members.now.entries)) }
{
    let shard = small_in(alloc, 1, MAX_SIZE, "shard_size", at, members)?;
    let show = truth_in(alloc, "show_term_doc_count_error", at, members)?;
    let size = small_in(alloc, 1, MAX_SIZE, "size", at, members)?.unwrap_or(10);
    Ok((size, shard_size(size, shard), show.unwrap_or(false)))
}

/// The members beside `field`, over the field at this place.
#[tactic(auto, unfolding(agg_reading::specs::Terms::terms_in))]
fn terms_over(
    alloc: Global,
    place: u32,
    field: &Field,
    at: &At<'_>,
    members: &Map<String, Value>,
) -> Result<(Kind, List<NamedOrder>), RequestFault>
    ensures { Gives (λ x. x) result (terms_in (place, field.now) (pointer at.now) (members_view members.now.entries)) }
{
    let (exclude, include) = term_lists(alloc, field.kind, at, members)?;
    let (min_doc_count, missing, order) = term_counts(alloc, field.kind, at, members)?;
    let (size, shard_size, show_error) = term_sizes(alloc, at, members)?;
    let kind = Kind::Terms {
        field: place,
        size,
        shard_size,
        min_doc_count,
        order: List::new(alloc),
        include,
        exclude: exclude.unwrap_or(List::new(alloc)),
        missing,
        show_error,
    };
    Ok((kind, order))
}

/// The kind `terms`, without orders, and the orders as written: by count descending where none is given.
#[tactic(auto, unfolding(agg_reading::specs::Terms::terms_at))]
pub fn terms(
    alloc: Global,
    mapping: &OrderedMapping<'_>,
    at: &At<'_>,
    value: &Value,
) -> Result<(Kind, List<NamedOrder>), RequestFault>
    ensures { Gives (λ x. x) result (terms_at mapping.now (pointer at.now) (view value.now)) }
{
    let members = object(alloc, WRONG_TYPE, at, value)?;
    check_names(
        alloc,
        UNKNOWN_MEMBER,
        at,
        members,
        &[
            "collect_mode",
            "exclude",
            "execution_hint",
            "field",
            "include",
            "min_doc_count",
            "missing",
            "order",
            "shard_size",
            "show_term_doc_count_error",
            "size",
        ],
    )?;
    let (place, field) = field_in(alloc, mapping, at, members)?;
    terms_over(alloc, place, field, at, members)
}
