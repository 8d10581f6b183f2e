//! What the test of searches says. The law is the contract of a function that does nothing.
ghost use Rattle.std.specs.Prelude.{◌≡◌, Decides};
ghost use Rattle.agg_model.specs.declared.aggregation.Search.{Search};
ghost use Rattle.search_equality.specs.Equality.{equal_searches};

/// Searches pass the test exactly where they are one and the same value, so an answer that is found is that of the search.
pub fn equal_searches_are_one()
    ensures { (a b : Search) → Decides (equal_searches a b) (a ≡ b) }
{}
