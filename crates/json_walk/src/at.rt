//! Where a value stands. A place lives on the stack of the walk and is written only when something is refused.

ghost use Rattle.std.specs.Prelude.{◌≡◌, ◌++◌, IfOk, OnOk, string_bytes};
ghost use Rattle.std.specs.List.{flat_map};
ghost use Rattle.std.specs.Str.{chars};
ghost use Rattle.agg_reading.specs.Pointer.{escaped};

use agg_model::Text;
use agg_reading::RequestFault;
use std::alloc::{AllocError, Global};

/// Where a value stands in a JSON value: a path of names and places from the start (RFC 6901).
#[derive(Clone, Copy)]
pub enum At<'a> {
    /// Where the walk begins, as a pointer already written; empty for a whole value.
    Start(&'a str),
    /// The member of this name of the object that stands there.
    Member(&'a At<'a>, &'a str),
    /// The item at this place, counted from 0, of the list that stands there.
    Item(&'a At<'a>, usize),
}

/// Writes a name as a step of a pointer, where `~` is written `~0` and `/` is written `~1`.
fn push_name(out: &mut String, name: &str) -> Result<(), AllocError>
    ensures { OnOk result (string_bytes out.new ≡ string_bytes out.old ++ flat_map escaped (chars name.now)) }
{
    for c in name.chars() {
        match c {
            '~' => out.push_str("~0")?,
            '/' => out.push_str("~1")?,
            c => out.push(c)?,
        }
    }
    Ok(())
}

impl At<'_> {
    ghost use Rattle.json_walk.specs.Places.{pointer};
    ghost use Rattle.agg_reading.specs.Pointer.{escaped};
    ghost use Rattle.agg_reading.specs.Reading.{Gives, refuse};

    /// Writes the pointer.
    fn write(&self, out: &mut String) -> Result<(), AllocError>
        ensures { OnOk result (string_bytes out.new ≡ string_bytes out.old ++ pointer self.now) }
    {
        match self {
            At::Start(text) => out.push_str(text),
            At::Member(at, name) => {
                at.write(out)?;
                out.push('/')?;
                push_name(out, name)
            }
            At::Item(at, place) => {
                at.write(out)?;
                write!(out, "/{place}")
            }
        }
    }

    /// The pointer as a text.
    pub fn text(&self, alloc: Global) -> Result<Text, AllocError>
        ensures { IfOk result (λ t. t ≡ pointer self.now) }
    {
        let mut out = String::new(alloc);
        self.write(&mut out)?;
        Ok(Text::from_string(out))
    }

    /// A refusal of this number at this place, or `Memory` where the pointer cannot be written.
    pub fn refuse<T>(&self, alloc: Global, code: u16) -> Result<T, RequestFault>
        ensures { Gives (λ x. x) result (refuse code (pointer self.now)) }
    {
        Err(RequestFault::Bad {
            code,
            path: self.text(alloc)?,
        })
    }
}
