//! JSON in bytes.

ghost use Rattle.std.specs.Prelude.{◌≡◌, IfOk, option_map};
ghost use Rattle.serde_json.specs.View.{view};
ghost use Rattle.agg_reading.specs.Reading.{Gives};
ghost use Rattle.agg_reading.specs.Json.{reading, json_at};

use agg_reading::RequestFault;
use serde_json::Value;
use std::alloc::{AllocError, Global};

/// The value that the bytes are; none where they are not JSON, not UTF-8, or nested deeper than 127.
pub fn reading(alloc: Global, bytes: &[u8]) -> Result<Option<Value>, AllocError>
    ensures { IfOk result (λ value. option_map view value ≡ reading bytes.now) }
{
    match Value::from_slice(alloc, bytes) {
        Ok(value) => Ok(Some(value)),
        Err(e) if e.is_memory() => Err(AllocError),
        Err(_) => Ok(None),
    }
}

/// The value that the bytes are, or `NotJson`.
#[tactic(auto, unfolding(agg_reading::specs::Json::json_at))]
pub fn json(alloc: Global, bytes: &[u8]) -> Result<Value, RequestFault>
    ensures { Gives view result (json_at bytes.now) }
{
    match reading(alloc, bytes)? {
        Some(value) => Ok(value),
        None => Err(RequestFault::NotJson),
    }
}
