//! JSON values that are printed.
ghost use Rattle.std.specs.Prelude.{◌≡◌, ◌∷◌, ◌++◌, [], IfOk, false, map};
ghost use Rattle.serde_json.specs.Data.{object, string, boolean, no_members};
ghost use Rattle.serde_json.specs.Data.{put as with_member};
ghost use Rattle.serde_json.specs.View.{view, items_view, members_view};
ghost use Rattle.serde_json.specs.Written.{compact_text, has_float, items_have_float, members_have_float};
ghost use Rattle.agg_spec.specs.Json.{array_of, count};

use agg_model::Text;
use serde_json::{Map, Value, put};
use std::alloc::{AllocError, Global};

/// A JSON value without a fraction, so that its text is determined.
#[derive(Drop)]
pub(crate) struct Json {
    pub(crate) value: Value,
    ghost no_float: { has_float (view value) ≡ false },
}

/// The members of an object that is being made. Of one name the last counts.
#[derive(Drop)]
pub(crate) struct Object {
    pub(crate) members: Map<String, Value>,
    ghost no_float: { members_have_float (members_view members.entries) ≡ false },
}

/// The items of an array that is being made.
#[derive(Drop)]
pub(crate) struct Array {
    pub(crate) items: Vec<Value>,
    ghost no_float: { items_have_float (items_view items.items) ≡ false },
}

/// A text as a value.
pub(crate) fn text_value(alloc: Global, text: &str) -> Result<Json, AllocError>
    ensures { IfOk result (λ j. view j.value ≡ string text.now) }
{
    Ok(Json {
        value: Value::String(String::from_str(alloc, text)?),
    })
}

/// A truth value.
pub(crate) fn flag_value(flag: bool) -> Json
    ensures { view result.value ≡ boolean flag }
{
    Json {
        value: Value::Bool(flag),
    }
}

/// A count as a value.
pub(crate) fn count_value(n: u64) -> Json
    ensures { view result.value ≡ count n }
{
    Json {
        value: Value::from(n),
    }
}

impl Json {
    /// The text without spaces.
    pub(crate) fn text(&self, alloc: Global) -> Result<Text, AllocError>
        ensures { IfOk result (λ t. t ≡ compact_text (view self.now.value)) }
    {
        Ok(Text::from_string(self.value.to_string(alloc)?))
    }
}

impl Object {
    /// An object without members.
    pub(crate) fn new(alloc: Global) -> Self
        ensures { members_view result.members.entries ≡ no_members }
    {
        Object {
            members: Map::new(alloc),
        }
    }

    /// The object with one more member.
    pub(crate) fn with(self, alloc: Global, name: &str, json: Json) -> Result<Self, AllocError>
        ensures { IfOk result (λ o. members_view o.members.entries
            ≡ with_member name.now (view json.value) (members_view self.members.entries)) }
    {
        let mut members = self.members;
        put(&mut members, alloc, name, json.value)?;
        Ok(Object { members })
    }

    /// The object with one more member, a text.
    pub(crate) fn with_text(self, alloc: Global, name: &str, text: &str) -> Result<Self, AllocError>
        ensures { IfOk result (λ o. members_view o.members.entries
            ≡ with_member name.now (string text.now) (members_view self.members.entries)) }
    {
        self.with(alloc, name, text_value(alloc, text)?)
    }

    /// The object with one more member, a count.
    pub(crate) fn with_count(self, alloc: Global, name: &str, n: u64) -> Result<Self, AllocError>
        ensures { IfOk result (λ o. members_view o.members.entries
            ≡ with_member name.now (count n) (members_view self.members.entries)) }
    {
        self.with(alloc, name, count_value(n))
    }

    /// The object as a value.
    pub(crate) fn into_json(self) -> Json
        ensures { view result.value ≡ object (members_view self.members.entries) }
    {
        Json {
            value: Value::Object(self.members),
        }
    }
}

impl Array {
    /// An array without items.
    pub(crate) fn new(alloc: Global) -> Self
        ensures { map view result.items.items ≡ [] }
    {
        Array {
            items: Vec::new(alloc),
        }
    }

    /// The array with one more item.
    pub(crate) fn with(self, json: Json) -> Result<Self, AllocError>
        ensures { IfOk result (λ a. map view a.items.items
            ≡ map view self.items.items ++ view json.value ∷ []) }
    {
        let mut items = self.items;
        items.push(json.value)?;
        Ok(Array { items })
    }

    /// The array as a value.
    pub(crate) fn into_json(self) -> Json
        ensures { view result.value ≡ array_of (map view self.items.items) }
    {
        Json {
            value: Value::Array(self.items),
        }
    }
}
