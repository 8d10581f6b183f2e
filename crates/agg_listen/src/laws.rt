//! Laws of the definitions. Each function has a law as its contract, over all values of the definitions, and does nothing.
ghost use Rattle.std.specs.Prelude.{◌≡◌, List, map, length};
ghost use Rattle.std.specs.List.{filter};
ghost use Rattle.agg_listen.specs.Standing.{Standing, all_having_heard_each, having_heard_all, stays_for};
ghost use Rattle.agg_listen.specs.declared.listener.Told.{Told};

/// After several answers those are left, in their order, that are steady or had room for all of them, and each heard all.
pub fn listeners_that_stay_heard_all()
    ensures { (told : List Told) (all : List Standing) → all_having_heard_each told all ≡ map (having_heard_all told) (filter (stays_for (length told)) all) }
{}
