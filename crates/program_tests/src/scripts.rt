//! The documents of the tests, as lines of a script, and searches behind them.
use agg_model::Bytes;
use std::alloc::{AllocError, Global};

/// A keyword field on two shards.
const TWO_SHARDS: &str =
    r#"{"index":"i","mappings":{"properties":{"t":{"type":"keyword"}}},"settings":{"number_of_shards":2}}

{"index":{"routing":"1"}}
{"t":"a"}
{"index":{"routing":"0"}}
{"t":"b"}
{"index":{"routing":"0"}}
{"t":"c"}

"#;

/// A keyword field on seven shards.
const SEVEN_SHARDS: &str =
    r#"{"index":"i","mappings":{"properties":{"t":{"type":"keyword"}}},"settings":{"number_of_shards":7}}

"#;

/// A header, and a search by the words of `t`.
const SEARCH: &str = r#"{}
{"aggs":{"t":{"terms":{"field":"t"}}}}
"#;

/// The lines, and so many searches behind them.
fn with_searches(alloc: Global, lines: &str, searches: usize) -> Result<Bytes, AllocError> {
    let mut script = String::from_str(alloc, lines)?;
    for _search in 0..searches {
        script.push_str(SEARCH)?;
    }
    Bytes::of(alloc, script.as_bytes())
}

/// One document with `a` on shard 0, and one with `b` and one with `c` on shard 1; and so many searches.
pub(crate) fn two_shards(alloc: Global, searches: usize) -> Result<Bytes, AllocError> {
    with_searches(alloc, TWO_SHARDS, searches)
}

/// Seven shards without documents.
pub(crate) fn seven_empty_shards(alloc: Global) -> Result<Bytes, AllocError> {
    let mut lines = String::from_str(alloc, SEVEN_SHARDS)?;
    lines.push_str("\n")?;
    with_searches(alloc, lines.as_str(), 0)
}

/// The documents 1 to 20 on seven shards, of which the first twelve have the word `a` and the others `b`; and so many searches.
///
/// | shard | 0 | 1 | 2 | 3 | 4 | 5 | 6 |
/// |---|---|---|---|---|---|---|---|
/// | `a` | 3 | 1 | 1 | 3 | 1 | 1 | 2 |
/// | `b` | 1 | 1 | 2 | 0 | 3 | 1 | 0 |
pub(crate) fn seven_shards(alloc: Global, searches: usize) -> Result<Bytes, AllocError> {
    let mut lines = String::from_str(alloc, SEVEN_SHARDS)?;
    for id in 1..21u32 {
        let word = if id <= 12 { "a" } else { "b" };
        let action = format!(in alloc;
            "{{\"index\":{{\"_id\":\"{id}\"}}}}\n{{\"t\":\"{word}\"}}\n"
        )?;
        lines.push_str(action.as_str())?;
    }
    lines.push_str("\n")?;
    with_searches(alloc, lines.as_str(), searches)
}
