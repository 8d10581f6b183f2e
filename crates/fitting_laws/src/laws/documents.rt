//! Laws of documents: what is read fits its mapping, and is such as an index takes.
ghost use Rattle.std.specs.Prelude.{◌≡◌, ℕ, ◌≤◌, List, sum_by, IsTrue, IfOk};
ghost use Rattle.agg_evaluation.specs.Counted.{IsApart};
ghost use Rattle.agg_evaluation.specs.DocumentFits.{fits, all_fit};
ghost use Rattle.agg_evaluation.specs.PlacedFits.{rows_placed};
ghost use Rattle.agg_evaluation.specs.Rows.{rows_of_documents};
ghost use Rattle.agg_evaluation.specs.RowsWeight.{rows_weight};
ghost use Rattle.agg_model.specs.Contexts.{parents_before};
ghost use Rattle.agg_model.specs.Lines.{Line};
ghost use Rattle.agg_model.specs.declared.bulk.Action.{Action};
ghost use Rattle.agg_model.specs.declared.mapping.Mapping.{Mapping};
ghost use Rattle.agg_model.specs.declared.row.Document.{Document};
ghost use Rattle.agg_reading.specs.Document.{document_at};
ghost use Rattle.agg_reading.specs.IndexLine.{index_line_at};
ghost use Rattle.agg_reading.specs.Script.{loaded};
ghost use Rattle.agg_reading.specs.Store.{Store, weight, store_weight, applied, shards_of};
ghost use Rattle.fitting_laws.specs.Stores.{IsFitting, AreShards, IsIndexed};

/// The root row of each document that is read fits the mapping.
pub fn documents_that_are_read_fit()
    ensures { (m : Mapping) (source : List ℕ) → IfOk (document_at m source) (λ root. IsTrue (fits m root)) }
{}

/// Each bulk action that is accepted keeps the live documents fitting, and lighter than `WEIGHT_LIMIT` together.
pub fn actions_keep_documents_fitting()
    ensures { (m : Mapping) (action : Action) (store : Store) → IsFitting m store →
        IfOk (applied m action store) (λ r. IsFitting m r.1) }
{}

/// The rows of documents weigh as the documents do, and the shards of a store together as the store.
pub fn weights_agree()
    ensures rows { (documents : List Document) → rows_weight (rows_of_documents documents) ≡ sum_by weight documents }
    ensures shards { (store : Store) (n : ℕ) → 1 ≤ n → sum_by (sum_by weight) (shards_of store n) ≡ store_weight store }
{}

/// Each row of a document that fits has values of its own context's fields alone, as the formats give them.
pub fn rows_of_fitting_documents_fit()
    ensures { (m : Mapping) (documents : List Document) → IsTrue (all_fit m documents) →
        IsTrue (rows_placed m (rows_of_documents documents)) }
{}

/// The shards of a store whose documents fit are such as an index is built from: they fit, and their rows weigh less than
/// `WEIGHT_LIMIT` together.
pub fn shards_of_fitting_stores_fit()
    ensures { (m : Mapping) (store : Store) (n : ℕ) → 1 ≤ n → IsFitting m store → AreShards m (shards_of store n) }
{}

/// What is loaded is what an index is built from: its mapping's paths stand in order, each behind the one around it, and its
/// shards are 1 to `MAX_SHARDS`, of documents that fit and are lighter than `WEIGHT_LIMIT` together.
pub fn what_is_loaded_is_an_index()
    ensures { (lines : List Line) → IfOk (loaded lines) IsIndexed }
{}

/// Each nested path of a mapping that is read stands behind the one around it.
pub fn paths_of_mappings_stand_in_order()
    ensures { (bytes : List ℕ) → IfOk (index_line_at bytes) (λ l. IsTrue (parents_before l.mapping)) }
{}

/// No row of documents that fit lies below two rows of one context, where each nested path of the mapping stands behind
/// the one around it.
pub fn rows_of_fitting_documents_are_apart()
    ensures { (m : Mapping) (documents : List Document) → IsTrue (parents_before m) →
        IsTrue (all_fit m documents) → IsApart (rows_of_documents documents) }
{}
