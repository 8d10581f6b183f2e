//! The line that answers bulk actions.
ghost use Rattle.std.specs.Prelude.{◌≡◌, ◌++◌, ◌∷◌, ◌<◌, [], IfOk, OnOk, codes, length, map, false, true};
ghost use Rattle.std.specs.List.{list_any};
ghost use Rattle.serde_json.specs.Data.{string, boolean};
ghost use Rattle.agg_spec.specs.Json.{object_of, count};
ghost use Rattle.agg_spec.specs.BulkLine as definition;
ghost use Rattle.bulk_items.specs.Items.{end_of, item_at};
ghost use Rattle.agg_response.specs.Tokens.{Adds, member_tokens, value_tokens, values_tokens};

use crate::values::{Object, flag_value};
use agg_model::item_refusal::{INDEX_FULL, STRICT_MAPPING, VERSION_CONFLICT};
use agg_model::{ActionKind, Applied, ItemRefusal, Text};
use bulk_items::{EndView, Items};
use json::Writer;
use std::alloc::{AllocError, Global};

fn action_name(kind: ActionKind) -> &'static str
    ensures { result.now ≡ definition.action_name kind }
{
    match kind {
        ActionKind::Index => "index",
        ActionKind::Create => "create",
        ActionKind::Delete => "delete",
    }
}

fn applied_name(applied: Applied) -> &'static str
    ensures { result.now ≡ definition.applied_name applied }
{
    match applied {
        Applied::Created => "created",
        Applied::Updated => "updated",
        Applied::Deleted => "deleted",
        Applied::NotFound => "not_found",
    }
}

fn applied_status(applied: Applied) -> u64
    ensures { result ≡ definition.applied_status applied }
{
    match applied {
        Applied::Created => 201,
        Applied::Updated | Applied::Deleted => 200,
        Applied::NotFound => 404,
    }
}

fn refusal_type(number: u8) -> &'static str
    ensures { result.now ≡ definition.refusal_type number }
{
    match number {
        VERSION_CONFLICT => "version_conflict_engine_exception",
        STRICT_MAPPING => "strict_dynamic_mapping_exception",
        INDEX_FULL => "index_full_exception",
        _ => "mapper_parsing_exception",
    }
}

fn refusal_status(number: u8) -> u64
    ensures { result ≡ definition.refusal_status number }
{
    if number == VERSION_CONFLICT { 409 } else { 400 }
}

/// Whether an item was refused.
fn has_refusal(items: &Items) -> bool
    ensures { result ≡ list_any (λ i. definition.is_refusal i.end) items.now }
{
    for place in 0..items.len() {
        if let EndView::Refused(_) = items.end(place) {
            return true;
        }
    }
    false
}

/// Writes a member, a text.
fn write_text(out: &mut Writer, name: &str, text: &str) -> Result<(), AllocError>
    ensures { OnOk result (Adds out.old out.new (member_tokens ((name.now, string text.now) ∷ []))) }
{
    out.key(name)?;
    out.string(text)?;
    Ok(())
}

/// Writes a member, a count.
fn write_count(out: &mut Writer, name: &str, n: u64) -> Result<(), AllocError>
    ensures { OnOk result (Adds out.old out.new (member_tokens ((name.now, count n) ∷ []))) }
{
    out.key(name)?;
    out.u64(n)?;
    Ok(())
}

/// Writes the path of a refusal. A refusal of the action, and not of its document, has none.
fn write_path(out: &mut Writer, refusal: &ItemRefusal) -> Result<(), AllocError>
    ensures { OnOk result (Adds out.old out.new (member_tokens (definition.refusal_path refusal.now))) }
{
    if refusal.number == VERSION_CONFLICT || refusal.number == INDEX_FULL {
        Ok(())
    } else {
        write_text(out, "path", refusal.path.as_str())
    }
}

/// Writes the error of a refused item.
fn write_error(out: &mut Writer, refusal: &ItemRefusal) -> Result<(), AllocError>
    ensures { OnOk result (Adds out.old out.new (value_tokens (object_of ((codes "number", count refusal.now.number)
        ∷ (definition.refusal_path refusal.now ++ (codes "type", string (definition.refusal_type refusal.now.number)) ∷ []))))) }
{
    out.begin_object()?;
    write_count(out, "number", u64::from(refusal.number))?;
    write_path(out, refusal)?;
    write_text(out, "type", refusal_type(refusal.number))?;
    out.end_object()?;
    Ok(())
}

/// Writes how an item ended, behind the members that say which item it is.
fn write_end(out: &mut Writer, end: EndView) -> Result<(), AllocError>
    ensures { OnOk result (Adds out.old out.new (member_tokens (definition.end_members (end_of end.entry)))) }
{
    match end {
        EndView::Applied(applied) => {
            write_text(out, "result", applied_name(applied))?;
            write_count(out, "status", applied_status(applied))?;
            Ok(())
        }
        EndView::Refused(refusal) => {
            out.key("error")?;
            write_error(out, refusal)?;
            write_count(out, "status", refusal_status(refusal.number))?;
            Ok(())
        }
    }
}

/// Writes the item at a place.
fn write_item(out: &mut Writer, index: &Text, items: &Items, place: usize) -> Result<(), AllocError>
    requires { place < length items.now }
    ensures { OnOk result (Adds out.old out.new (value_tokens (definition.item_value index.now (item_at items.now place)))) }
{
    out.begin_object()?;
    out.key(action_name(items.kind(place)))?;
    out.begin_object()?;
    write_text(out, "_id", items.id(place))?;
    write_text(out, "_index", index.as_str())?;
    write_end(out, items.end(place))?;
    out.end_object()?;
    out.end_object()?;
    Ok(())
}

/// Writes all items and the bracket behind them.
fn write_items(out: &mut Writer, index: &Text, items: &Items) -> Result<(), AllocError>
    ensures { OnOk result (Adds out.old out.new (values_tokens (map (definition.item_value index.now) items.now))) }
{
    for place in 0..items.len() {
        write_item(out, index, items, place)?;
    }
    out.end_array()?;
    Ok(())
}

/// Writes the line with all the items. An input has up to 1,048,576 items, so they are written one after another, and
/// there is never a value of them all.
fn write_line(out: &mut Writer, index: &Text, items: &Items) -> Result<(), AllocError>
    ensures { OnOk result (Adds out.old out.new (value_tokens (object_of (
        (codes "errors", boolean (list_any (λ i. definition.is_refusal i.end) items.now))
        ∷ (codes "items", definition.items_value index.now items.now false) ∷ (codes "took", count 0) ∷ [])))) }
{
    out.begin_object()?;
    out.key("errors")?;
    out.boolean(has_refusal(items))?;
    out.key("items")?;
    out.begin_array()?;
    write_items(out, index, items)?;
    write_count(out, "took", 0)?;
    out.end_object()?;
    Ok(())
}

/// The line with all the items.
fn listed(alloc: Global, index: &Text, items: &Items) -> Result<Text, AllocError>
    ensures { IfOk result (λ t. t ≡ definition.bulk_line index.now items.now false) }
{
    let mut out = Writer::new(Vec::new(alloc));
    write_line(&mut out, index, items)?;
    match String::from_utf8(out.into_inner()) {
        Ok(text) => Ok(Text::from_string(text)),
        Err(_) => unreachable!(),
    }
}

/// The line with the number of the items.
fn counted(alloc: Global, index: &Text, items: &Items) -> Result<Text, AllocError>
    ensures { IfOk result (λ t. t ≡ definition.bulk_line index.now items.now true) }
{
    Object::new(alloc)
        .with(alloc, "errors", flag_value(has_refusal(items)))?
        .with_count(alloc, "items", items.len() as u64)?
        .with_count(alloc, "took", 0)?
        .into_json()
        .text(alloc)
}

/// The line that answers the bulk actions on an index: the items in their order, or only their number where the script
/// was `generated`. It takes time and memory in proportion to the text.
pub fn bulk_line(
    alloc: Global,
    index: &Text,
    items: &Items,
    generated: bool,
) -> Result<Text, AllocError>
    ensures { IfOk result (λ t. t ≡ definition.bulk_line index.now items.now generated) }
{
    if generated {
        counted(alloc, index, items)
    } else {
        listed(alloc, index, items)
    }
}
