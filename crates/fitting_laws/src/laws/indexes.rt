//! Laws of an index of shards. Each function has a law as its contract, and does nothing.
ghost use Rattle.std.specs.Prelude.{ℕ, List, IsTrue, length};
ghost use Rattle.agg_evaluation.specs.Finishable.{can_finish};
ghost use Rattle.agg_evaluation.specs.SearchFits.{search_fits};
ghost use Rattle.agg_evaluation.specs.Trees.{numbers_fit};
ghost use Rattle.agg_model.specs.declared.aggregation.Search.{Search};
ghost use Rattle.agg_spec.specs.Outcome.{whole_of};
ghost use Rattle.fitting_laws.specs.Indexes.{index_of};
ghost use Rattle.list_laws.specs.Among.{AreAmong};
ghost use Rattle.shard_columns.specs.declared.index.Index.{Index};

/// Whichever shards of an index answer a search that is made for it, each at most once: the numbers of the whole of their
/// answers fit, and the whole can be finished.
pub fn some_shards_fit()
    ensures fit { (index : Index) (search : Search) (shards : List ℕ) → IsTrue (search_fits index.mapping search) → AreAmong (length index.shards) shards
        → IsTrue (numbers_fit (whole_of (index_of index) search shards)) }
    ensures finish { (index : Index) (search : Search) (shards : List ℕ) → IsTrue (search_fits index.mapping search) → AreAmong (length index.shards) shards
        → IsTrue (can_finish search (whole_of (index_of index) search shards)) }
{}
