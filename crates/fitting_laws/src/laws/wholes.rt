//! Laws of wholes: of counted rows, of shards that are chosen, and of numbers that fit.
ghost use Rattle.std.specs.Prelude.{ℕ, ◌^◌, ◌<◌, ◌≤◌, List, ◌++◌, IsPermutation, IsTrue};
ghost use Rattle.agg_evaluation.specs.Counted.{IsApart, IsCounted, is_by_value};
ghost use Rattle.agg_evaluation.specs.Finishable.{can_finish};
ghost use Rattle.agg_evaluation.specs.Groups.{under, group, total_key_count};
ghost use Rattle.agg_evaluation.specs.Rows.{PlacedRow, roots};
ghost use Rattle.agg_evaluation.specs.RowsWeight.{rows_weight};
ghost use Rattle.agg_evaluation.specs.SearchFits.{search_fits, handed};
ghost use Rattle.agg_evaluation.specs.Trees.{numbers_fit};
ghost use Rattle.agg_evaluation.specs.Whole.{whole};
ghost use Rattle.agg_model.specs.Contexts.{parents_before};
ghost use Rattle.agg_model.specs.declared.aggregation.Kind.{Kind};
ghost use Rattle.agg_model.specs.declared.aggregation.Search.{Search};
ghost use Rattle.agg_model.specs.declared.key.Key.{Key};
ghost use Rattle.agg_model.specs.declared.mapping.Mapping.{Mapping};
ghost use Rattle.agg_model.specs.declared.row.Document.{Document};
ghost use Rattle.agg_reading.specs.Script.{Loaded, loaded};
ghost use Rattle.agg_reading.specs.Store.{shards_of};
ghost use Rattle.fitting_laws.specs.Stores.{IsIndexed};
ghost use Rattle.fitting_laws.specs.Wholes.{answers_of, AreChosen};

/// Whatever an aggregation hands on of counted rows is counted again, and the keys of counted rows are no more than the
/// shard weighs.
pub fn counted_rows_are_counted_again()
    ensures under { (all : List PlacedRow) (context : ℕ) (k : Kind) (rows : List PlacedRow) → IsApart all →
        IsCounted all context rows → IsCounted all (handed context k) (under all (roots all) k rows) }
    ensures group { (all : List PlacedRow) (context : ℕ) (k : Kind) (rows : List PlacedRow) (key : Key) →
        IsCounted all context rows → IsCounted all context (group all k rows key) }
    ensures keys { (all : List PlacedRow) (context : ℕ) (k : Kind) (rows : List PlacedRow) → IsTrue (is_by_value k) →
        IsCounted all context rows → total_key_count all k rows ≤ rows_weight all }
{}

/// All shards of what is loaded are chosen ones, and so are any of them, each once and in any order: a batch, for example.
pub fn any_shards_of_an_index_are_chosen()
    ensures index { (l : Loaded) → IsIndexed l → AreChosen l.index.mapping (shards_of l.store l.index.shards) }
    ensures any { (m : Mapping) (shards chosen others : List (List Document)) → AreChosen m shards →
        IsPermutation shards (chosen ++ others) → AreChosen m chosen }
{}

/// The hits of the whole of any shards of an index are fewer than 2^32.
pub fn hits_of_shards_fit()
    ensures { (m : Mapping) (search : Search) (shards : List (List Document)) → AreChosen m shards →
        (whole search (answers_of search shards)).hits < 2 ^ 32 }
{}

/// The whole of the answers of any shards of an index, each once and in any order, has numbers that fit their types:
/// counts, errors and cuts below 2^64, full shards below 2^32, sums within 128 bits.
pub fn wholes_of_shards_fit()
    ensures { (m : Mapping) (search : Search) (shards : List (List Document)) → IsTrue (parents_before m) →
        IsTrue (search_fits m search) → AreChosen m shards →
        IsTrue (numbers_fit (whole search (answers_of search shards))) }
{}

/// The same wholes can be finished: their terms fit, and their keys are such as the aggregations make.
pub fn wholes_of_shards_can_finish()
    ensures { (m : Mapping) (search : Search) (shards : List (List Document)) → IsTrue (parents_before m) →
        IsTrue (search_fits m search) → AreChosen m shards →
        IsTrue (can_finish search (whole search (answers_of search shards))) }
{}
