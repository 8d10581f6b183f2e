//! A JSON value.

use serde_json::Number;

/// A JSON value, whose texts are lent.
#[derive(Drop)]
pub enum Lent<'a> {
    Null,
    Bool(bool),
    Number(Number),
    String(&'a str),
    Array(Vec<Lent<'a>>),
    /// The members in byte order of their names, each name once.
    Object(Vec<(&'a str, Lent<'a>)>),
}
