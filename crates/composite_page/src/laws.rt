//! Laws of pages. Each function has a law as its contract, and does nothing.
ghost use Rattle.std.specs.Prelude.{◌≡◌, ℕ, List, Option, map};
ghost use Rattle.agg_model.specs.declared.aggregation.CompositeSource.{CompositeSource};
ghost use Rattle.agg_model.specs.declared.key.Key.{Key};
ghost use Rattle.agg_model.specs.declared.partial.Bucket.{Bucket};
ghost use Rattle.agg_evaluation.specs.Orders.{bucket_key};
ghost use Rattle.agg_evaluation.specs.Shard.{page};
ghost use Rattle.composite_page.specs.Pages.{page_buckets};

/// The keys of a page of buckets are the page of their keys.
pub fn a_page_has_the_page_of_the_keys()
    ensures { (sources : List CompositeSource) (size : ℕ) (after : Option Key) (buckets : List Bucket) →
        map bucket_key (page_buckets sources size after buckets) ≡ page sources size after (map bucket_key buckets) }
{}
