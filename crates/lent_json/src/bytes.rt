//! From bytes to a value, in one pass over the tokens.

ghost use Rattle.std.specs.Prelude.{◌≡◌, ◌<◌, ◌++◌, ◌∷◌, [], length, Some, None, Err, IfOk, OnOk, option_map};
ghost use Rattle.json.specs.Json.{value, items, members};
ghost use Rattle.serde_json.specs.Data.{no_members};
ghost use Rattle.serde_json.specs.Read.{of_json, of_items, of_members, converted};
ghost use Rattle.serde_json.specs.Read.{read as read_text};
ghost use Rattle.agg_reading.specs.Json.{reading};
ghost use Rattle.lent_json.specs.View.{view, items_view, members_view};

use crate::fault::Fault;
use crate::members::in_order;
use crate::number::number_of;
use crate::value::Lent;
use json::{Reader, Scratch, Token};
use std::alloc::{AllocError, Global};
use std::str::from_utf8;

/// How deep arrays and objects may nest.
const MAX_DEPTH: usize = 127;

/// `Vec::push`, which answers that memory ran out and keeps nothing of the item.
fn push<T: Drop>(items: &mut Vec<T>, item: T) -> Result<(), AllocError>
    ensures { OnOk result (items.new.items ≡ items.old.items ++ item ∷ []) }
{
    items.push(item)?;
    Ok(())
}

/// The next value of the reader. Arrays and objects may nest `depth` deep.
#[cycle(read)]
#[inline(always)]
fn read<'a>(alloc: Global, reader: &mut Reader<'a>, depth: usize) -> Result<Lent<'a>, Fault>
    ensures ok { IfOk result
        (λ v. converted of_json (value depth reader.old) ≡ Some (view v, reader.new)) }
    ensures shorter { OnOk result (length reader.new < length reader.old) }
    ensures err { result ≡ Err Fault.NotJson → converted of_json (value depth reader.old) ≡ None }
{
    let token = reader.next().ok_or(Fault::NotJson)?;
    match token {
        Token::String(text) => Ok(Lent::String(text)),
        Token::Number(text) => match number_of(text) {
            Some(number) => Ok(Lent::Number(number)),
            None => Err(Fault::NotJson),
        },
        Token::Bool(b) => Ok(Lent::Bool(b)),
        Token::Null => Ok(Lent::Null),
        Token::EndObject | Token::EndArray | Token::Key(_) | Token::Bad => Err(Fault::NotJson),
        Token::BeginArray => {
            if depth == 0 {
                return Err(Fault::NotJson);
            }
            Ok(Lent::Array(read_items(alloc, reader, depth - 1)?))
        }
        Token::BeginObject => {
            if depth == 0 {
                return Err(Fault::NotJson);
            }
            Ok(Lent::Object(read_members(alloc, reader, depth - 1)?))
        }
    }
}

/// The items of an array, up to its bracket.
#[cycle(read)]
#[inline(never)]
fn read_items<'a>(
    alloc: Global,
    reader: &mut Reader<'a>,
    depth: usize,
) -> Result<Vec<Lent<'a>>, Fault>
    ensures ok { IfOk result
        (λ v. converted of_items (items (value depth) (length reader.old) reader.old)
        ≡ Some (items_view v.items, reader.new)) }
    ensures shorter { OnOk result (length reader.new < length reader.old) }
    ensures err { result ≡ Err Fault.NotJson
        → converted of_items (items (value depth) (length reader.old) reader.old) ≡ None }
{
    let mut found = Vec::new(alloc);
    'items: while !reader.take_end_array() {
        let item = read(alloc, reader, depth)?;
        push(&mut found, item)?;
    }
    Ok(found)
}

/// The members of an object, up to its brace.
#[cycle(read)]
#[inline(never)]
fn read_members<'a>(
    alloc: Global,
    reader: &mut Reader<'a>,
    depth: usize,
) -> Result<Vec<(&'a str, Lent<'a>)>, Fault>
    ensures ok { IfOk result
        (λ m. converted (λ ms. of_members ms no_members)
        (members (value depth) (length reader.old) reader.old)
        ≡ Some (members_view m.items, reader.new)) }
    ensures shorter { OnOk result (length reader.new < length reader.old) }
    ensures err { result ≡ Err Fault.NotJson
        → converted (λ ms. of_members ms no_members)
        (members (value depth) (length reader.old) reader.old) ≡ None }
{
    let mut found = Vec::new(alloc);
    'members: while let Some(name) = reader.next_key()? {
        let member = read(alloc, reader, depth)?;
        push(&mut found, (name, member))?;
    }
    let ordered = in_order(alloc, found)?;
    Ok(ordered)
}

/// The value that a text is.
fn read_all<'a>(alloc: Global, text: &'a str, scratch: &'a mut Scratch) -> Result<Lent<'a>, Fault>
    ensures ok { IfOk result (λ v. read_text text.now ≡ Some (view v)) }
    ensures err { result ≡ Err Fault.NotJson → read_text text.now ≡ None }
{
    let mut reader = Reader::new(text, scratch)?;
    let value = read(alloc, &mut reader, MAX_DEPTH)?;
    if reader.next().is_some() {
        return Err(Fault::NotJson);
    }
    Ok(value)
}

/// The value that the bytes are; none where they are not JSON (RFC 8259), not UTF-8, or nested deeper than 127. Of one
/// name the last member counts, and a number that is too large for 64 bits with a point is no JSON.
///
/// The scratch is kept from one call to the next, and grows to the longest line. It takes time in proportion to the bytes,
/// and for members that stand in another order than that of their names, the logarithm of their number.
pub fn reading<'a>(
    alloc: Global,
    bytes: &'a [u8],
    scratch: &'a mut Scratch,
) -> Result<Option<Lent<'a>>, AllocError>
    ensures { IfOk result (λ value. option_map view value ≡ reading bytes.now) }
{
    let Ok(text) = from_utf8(bytes) else {
        return Ok(None);
    };
    match read_all(alloc, text, scratch) {
        Ok(value) => Ok(Some(value)),
        Err(Fault::NotJson) => Ok(None),
        Err(Fault::Memory) => Err(AllocError),
    }
}
