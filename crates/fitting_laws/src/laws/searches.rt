//! Laws of searches: what is read is made for its mapping, and so are the next pages.
ghost use Rattle.std.specs.List.{list_all};
ghost use Rattle.std.specs.Prelude.{ℕ, List, length, IsTrue, IfOk, IfSome};
ghost use Rattle.agg_evaluation.specs.Conditions.{has_intervals, looks_below};
ghost use Rattle.agg_evaluation.specs.Placement.{has_globals_at_top};
ghost use Rattle.agg_evaluation.specs.QueryFits.{query_fits};
ghost use Rattle.agg_evaluation.specs.SearchFits.{search_fits};
ghost use Rattle.agg_model.specs.declared.aggregation.Search.{Search};
ghost use Rattle.agg_model.specs.declared.key.Key.{Key};
ghost use Rattle.agg_model.specs.declared.mapping.Mapping.{Mapping};
ghost use Rattle.agg_model.specs.declared.query.Query.{Query};
ghost use Rattle.agg_reading.specs.Query.{query_from};
ghost use Rattle.agg_reading.specs.Request.{search_of};
ghost use Rattle.agg_spec.specs.Index.{Index};
ghost use Rattle.agg_spec.specs.Pages.{is_paged, next_search, search_after};
ghost use Rattle.fitting_laws.specs.Pages.{search_takes};
ghost use Rattle.serde_json.specs.Data.{Data};

/// Each query that is read is made for the mapping and its context; such a query looks at fields of the mapping alone.
pub fn queries_that_are_read_fit()
    ensures read { (m : Mapping) (context before : ℕ) (at : List ℕ) (d : Data) →
        IfOk (query_from m context before at d) (λ q. IsTrue (query_fits m context q)) }
    ensures below { (m : Mapping) (context : ℕ) (q : Query) → IsTrue (query_fits m context q) →
        IsTrue (looks_below (length m.fields) q) }
{}

/// Each search that is read is made for the mapping.
pub fn searches_that_are_read_fit()
    ensures { (m : Mapping) (body : List ℕ) → IfOk (search_of m body) (λ s. IsTrue (search_fits m s)) }
{}

/// A search that is made for a mapping has intervals above 0, and global aggregations at its top alone.
pub fn made_searches_have_their_parts()
    ensures intervals { (m : Mapping) (s : Search) → IsTrue (search_fits m s) → IsTrue (list_all has_intervals s.aggs) }
    ensures globals { (m : Mapping) (s : Search) → IsTrue (search_fits m s) → IsTrue (has_globals_at_top s) }
{}

/// The next page of a search that is made for a mapping is one as well: behind each key with a part for each source, and
/// so behind the last key of what any shards of an index answer.
pub fn next_pages_fit()
    ensures behind { (m : Mapping) (s : Search) (key : Key) → IsTrue (search_takes key s) →
        IsTrue (search_fits m s) → IsTrue (search_fits m (search_after s key)) }
    ensures next { (index : Index) (shards : List ℕ) (s : Search) → IsTrue (search_fits index.mapping s) →
        IfSome (next_search index shards (is_paged s.aggs) s) (λ next. IsTrue (search_fits index.mapping next)) }
{}
