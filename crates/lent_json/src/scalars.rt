//! The values that a JSON value stands for in a field. A number is whole where it is an integer of 64 bits, signed or
//! unsigned: `1.0`, `1e2` and `-0` are not.

ghost use Rattle.std.specs.Prelude.{◌≡◌, IfOk};
ghost use Rattle.lent_json.specs.View.{view};
ghost use Rattle.agg_reading.specs.Scalars.{whole, word, flag, flag_of};

use crate::value::Lent;
use agg_model::Text;
use json_walk::decimal_of;
use std::alloc::{AllocError, Global};

/// The number of a whole JSON number or a decimal text; none for any other value.
#[tactic(auto, unfolding(agg_reading::specs::Scalars::whole))]
pub fn whole(value: &Lent<'_>) -> Option<i128>
    ensures { result ≡ whole (view value.now) }
{
    match value {
        Lent::Number(number) => number.as_i128(),
        Lent::String(text) => decimal_of(text),
        _ => None,
    }
}

/// The keyword of a text, a whole number in decimal, or a boolean's word; none for any other value.
#[tactic(auto, unfolding(agg_reading::specs::Scalars::word))]
pub fn word(alloc: Global, value: &Lent<'_>) -> Result<Option<Text>, AllocError>
    ensures { IfOk result (λ w. w ≡ word (view value.now)) }
{
    match value {
        Lent::Number(number) => match number.as_i128() {
            Some(n) => Ok(Some(Text::from_string(n.to_string(alloc)?))),
            None => Ok(None),
        },
        Lent::String(text) => Ok(Some(Text::of(alloc, text)?)),
        Lent::Bool(true) => Ok(Some(Text::of(alloc, "true")?)),
        Lent::Bool(false) => Ok(Some(Text::of(alloc, "false")?)),
        _ => Ok(None),
    }
}

/// The boolean of the texts `true` and `false`.
fn flag_of(text: &str) -> Option<bool>
    ensures { result ≡ flag_of text.now }
{
    match text {
        "true" => Some(true),
        "false" => Some(false),
        _ => None,
    }
}

/// The boolean of a JSON boolean or of the texts `true` and `false`; none for any other value.
#[tactic(auto, unfolding(agg_reading::specs::Scalars::flag))]
pub fn flag(value: &Lent<'_>) -> Option<bool>
    ensures { result ≡ flag (view value.now) }
{
    match value {
        Lent::Bool(b) => Some(*b),
        Lent::String(text) => flag_of(text),
        _ => None,
    }
}
