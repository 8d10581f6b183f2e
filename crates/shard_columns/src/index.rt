ghost use Rattle.std.specs.Prelude.{◌≡◌, ◌<◌, ◌≤◌, ◌+◌, length, map, IsTrue, IfOk};
ghost use Rattle.std.specs.List.{list_all};
ghost use Rattle.agg_model.specs.declared.limits.TheConstants.{MAX_PATHS, MAX_SHARDS, WEIGHT_LIMIT};
ghost use Rattle.agg_model.specs.Contexts.{parents_before};
ghost use Rattle.agg_model.specs.MappingOrder.{IsOrdered};
ghost use Rattle.agg_evaluation.specs.DocumentFits.{all_fit};
ghost use Rattle.agg_evaluation.specs.Rows.{rows_of_documents};
ghost use Rattle.shard_columns.specs.Built.{columns_from};
ghost use Rattle.shard_columns.specs.Index.{AreShardsOf, rows_by_shard, shards_weight, lists_weight};

use crate::shard::Shard;
use agg_model::{Document, List, Mapping, Text};
use std::alloc::{AllocError, Global};

/// An index: its name, its mapping, and from 1 to `MAX_SHARDS` shards ('Index modules' of Elasticsearch Reference 8).
///
/// Each shard was built with this mapping from documents that fit it, and all of them weigh less than `WEIGHT_LIMIT`
/// together. The mapping's paths stand in byte order, up to `MAX_PATHS` fields and nested paths, and each nested path behind
/// the one around it: searches can be read for it.
#[derive(Drop)]
pub struct Index {
    pub name: Text,
    pub mapping: Mapping,
    pub shards: List<Shard>,
    ghost some_shards: { 0 < length shards },
    ghost few_shards: { length shards ≤ MAX_SHARDS },
    ghost ordered: { IsOrdered mapping },
    ghost paths: { IsTrue (parents_before mapping) },
    ghost built: { ∥ AreShardsOf mapping shards ∥₁ },
    ghost light: { shards_weight shards < WEIGHT_LIMIT },
}

// A shard of each list.
fn shards_from(
    alloc: Global,
    mapping: &Mapping,
    documents: &[List<Document>],
) -> Result<List<Shard>, AllocError>
    requires few { length mapping.now.fields + length mapping.now.nested ≤ MAX_PATHS }
    requires paths { IsTrue (parents_before mapping.now) }
    requires each_fits { IsTrue (list_all (all_fit mapping.now) documents.now) }
    requires all_light { lists_weight documents.now < WEIGHT_LIMIT }
    ensures { IfOk result (λ shards. shards ≡ map (columns_from mapping.now) documents.now) }
{
    let mut shards = List::new(alloc);
    for list in documents {
        shards.push(Shard::build(alloc, list, mapping)?)?;
    }
    Ok(shards)
}

impl Index {
    /// An index with a shard for each list of documents, from 1 to `MAX_SHARDS`, in time n log n.
    ///
    /// The mapping's paths stand in byte order, up to `MAX_PATHS` fields and nested paths, each path behind the one around it.
    /// The documents are such as their reader gives them for it, with rows, values and bytes of words that are fewer than `WEIGHT_LIMIT` together.
    pub fn build(
        alloc: Global,
        name: Text,
        mapping: Mapping,
        documents: &List<List<Document>>,
    ) -> Result<Index, AllocError>
        requires some { 0 < length documents.now }
        requires at_most { length documents.now ≤ MAX_SHARDS }
        requires ordered { IsOrdered mapping }
        requires paths { IsTrue (parents_before mapping) }
        requires fit { IsTrue (list_all (all_fit mapping) documents.now) }
        requires light { lists_weight documents.now < WEIGHT_LIMIT }
        ensures name { IfOk result (λ index. index.name ≡ name) }
        ensures mapping { IfOk result (λ index. index.mapping ≡ mapping) }
        ensures rows { IfOk result (λ index. rows_by_shard index.shards ≡ map rows_of_documents documents.now) }
    {
        let shards = shards_from(alloc, &mapping, documents.as_slice())?;
        Ok(Index {
            name,
            mapping,
            shards,
        })
    }
}
