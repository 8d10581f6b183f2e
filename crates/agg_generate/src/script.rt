//! The script of `--generate`: its index line, its documents, and its one search.
ghost use Rattle.std.specs.Prelude.{◌≡◌, ◌++◌, ◌∷◌, [], IfOk, OnOk, codes, decimal, string_bytes};
ghost use Rattle.std.specs.List.{join_with_byte};
ghost use Rattle.agg_generate.specs.Documents.{after_document, ended};
ghost use Rattle.agg_spec.specs.Generator as definition;
ghost use Rattle.agg_spec.specs.Generator.{below, drawn, documents_from, generated, items_from};

use crate::draws::Draws;
use agg_model::{Bytes, Generate};
use std::alloc::{AllocError, Global};

const TAGS: u64 = 50;

const PRICES: u64 = 10_000;

const ITEM_COUNTS: u64 = 3;

const SKUS: u64 = 20;

const QUANTITIES: u64 = 100;

const SEARCH_BODY: &str =
    "{\"size\":0,\"aggs\":{\"tags\":{\"terms\":{\"field\":\"tag\",\"size\":5},\"aggs\":{\"total\":{\"sum\":{\"field\":\"price\"}}}},\"items\":{\"nested\":{\"path\":\"items\"},\"aggs\":{\"skus\":{\"terms\":{\"field\":\"items.sku\",\"size\":3}}}}}}";

/// Appends the index line, without its newline.
fn append_index_line(script: &mut String, shards: u32) -> Result<(), AllocError>
    ensures { OnOk result (string_bytes script.new ≡ string_bytes script.old ++ definition.index_text shards) }
{
    write!(
        script,
        "{{\"index\":\"generated\",\"mappings\":{{\"properties\":{{\"items\":{{\"properties\":{{\"qty\":{{\"type\":\"integer\"}},\"sku\":{{\"type\":\"keyword\"}}}},\"type\":\"nested\"}},\"price\":{{\"type\":\"long\"}},\"tag\":{{\"type\":\"keyword\"}}}}}},\"settings\":{{\"number_of_shards\":{shards}}}}}"
    )
}

/// Appends one item of a document.
fn append_item(script: &mut String, draws: &mut Draws) -> Result<(), AllocError>
    ensures text { OnOk result (string_bytes script.new ≡ string_bytes script.old ++ definition.item_text (below 20 (drawn draws.old.state)) (below 100 (drawn (drawn draws.old.state)))) }
    ensures draws { draws.new.state ≡ drawn (drawn draws.old.state) }
{
    let sku = draws.below(SKUS);
    let quantity = draws.below(QUANTITIES);
    write!(script, "{{\"qty\":{quantity},\"sku\":\"s{sku}\"}}")
}

/// Appends so many items, with commas between them.
fn append_items(script: &mut String, draws: &mut Draws, count: u64) -> Result<(), AllocError>
    ensures text { OnOk result (string_bytes script.new ≡ string_bytes script.old ++ join_with_byte 44 (items_from count draws.old.state).0) }
    ensures draws { OnOk result (draws.new.state ≡ (items_from count draws.old.state).1) }
{
    if count == 0 {
        return Ok(());
    }
    append_item(script, draws)?;
    for _place in 1..count {
        script.push_str(",")?;
        append_item(script, draws)?;
    }
    Ok(())
}

/// Appends the action line of a document.
fn append_action(script: &mut String, id: u32) -> Result<(), AllocError>
    ensures { OnOk result (string_bytes script.new ≡ string_bytes script.old ++ (definition.action_text id ++ codes "\n")) }
{
    writeln!(script, "{{\"index\":{{\"_id\":\"{id}\"}}}}")
}

/// Appends what stands behind the items of a document.
fn append_behind_items(script: &mut String, price: u64, tag: u64) -> Result<(), AllocError>
    ensures { OnOk result (string_bytes script.new ≡ string_bytes script.old ++ (codes "],\"price\":" ++ (decimal price ++ (codes ",\"tag\":\"t" ++ (decimal tag ++ codes "\"}\n"))))) }
{
    writeln!(script, "],\"price\":{price},\"tag\":\"t{tag}\"}}")
}

/// Appends the two lines of a document.
fn append_document(script: &mut String, draws: &mut Draws, id: u32) -> Result<(), AllocError>
    ensures text { OnOk result (string_bytes script.new ≡ string_bytes script.old ++ ended (documents_from 1 id draws.old.state)) }
    ensures draws { OnOk result (draws.new.state ≡ after_document draws.old.state) }
{
    let tag = draws.below(TAGS);
    let price = draws.below(PRICES);
    let count = draws.below(ITEM_COUNTS);
    append_action(script, id)?;
    script.push_str("{\"items\":[")?;
    append_items(script, draws, count)?;
    append_behind_items(script, price, tag)?;
    Ok(())
}

/// The script of that many documents and shards, with numbers that are drawn from the seed. It takes any number of both; the
/// words of the program give at most `MAX_GENERATED_DOCUMENTS` and `MAX_GENERATED_SHARDS`. It takes time and memory in
/// proportion to the number of documents, and fails only where memory is wanting.
pub fn make(alloc: Global, generate: &Generate) -> Result<Bytes, AllocError>
    ensures { IfOk result (λ script. script ≡ generated generate.now) }
{
    let mut script = String::new(alloc);
    append_index_line(&mut script, generate.shards)?;
    script.push_str("\n\n")?;
    let mut draws = Draws {
        state: generate.number,
    };
    for id in 0..generate.documents {
        append_document(&mut script, &mut draws, id)?;
    }
    script.push_str("\n{}\n")?;
    script.push_str(SEARCH_BODY)?;
    script.push_str("\n")?;
    Ok(Bytes::from_vec(script.into_bytes()))
}
