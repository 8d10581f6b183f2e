//! Laws of growth: what one more row makes of a tree.
ghost use Rattle.std.specs.Prelude.{◌≡◌, ◌+◌, length, List, [], ◌∷◌, ◌++◌, map, ℕ, IsTrue, true, false, find, flat_map, slice_get, Some};
ghost use Rattle.std.specs.List.{list_all, list_any};
ghost use Rattle.std.proofs.Math.ListN.{set};
ghost use Rattle.agg_model.specs.declared.aggregation.Agg.{Agg, out-Agg};
ghost use Rattle.agg_model.specs.declared.aggregation.Kind.{Kind};
ghost use Rattle.agg_model.specs.declared.aggregation.Search.{Search};
ghost use Rattle.agg_evaluation.specs.Groups.{all_keys, group};
ghost use Rattle.agg_evaluation.specs.Keys.{keys};
ghost use Rattle.agg_model.specs.declared.key.Key.{Key};
ghost use Rattle.agg_model.specs.declared.partial.Bucket.{Bucket};
ghost use Rattle.agg_model.specs.declared.row.Row.{Row};
ghost use Rattle.agg_evaluation.specs.Placement.{is_placed};
ghost use Rattle.agg_evaluation.specs.Trace.{built, global_roots, is_global, matched};
ghost use Rattle.agg_evaluation.specs.KeyOrder.{has_key, key_eq};
ghost use Rattle.agg_evaluation.specs.Orders.{bucket_key};
ghost use Rattle.agg_evaluation.specs.Rows.{PlacedRow, enclosing, is_within, shard_rows};
ghost use Rattle.agg_evaluation.specs.Shard.{collected_node, sorted_by_key};
ghost use Rattle.growth_laws.specs.Growth.{Grower, grown, grown_bucket, new_bucket, put_row, is_plain};
ghost use Rattle.growth_laws.specs.Cutting.{cut_tree};
ghost use Rattle.growth_laws.specs.Arrived.{AreDistinct, IsAt};
ghost use Rattle.growth_laws.specs.Apart.{EncloseNone, IsAround};
ghost use Rattle.growth_laws.specs.Documents.{IsCutAt, lie_before, lie_behind};
ghost use Rattle.growth_laws.specs.Gathering.{Gatherer, counted, gathered, gathered_bucket, put_rows};
ghost use Rattle.growth_laws.specs.BucketBytes.{bucket_bytes, bucket_or_empty};
ghost use Rattle.std.specs.Option.{option_map_or};
ghost use Rattle.agg_model.specs.declared.partial.Node.TheVariants.{Keyed};
ghost use Rattle.agg_evaluation.specs.Cost.{node_cost};
ghost use Rattle.agg_evaluation.specs.Trees.{is_ascending};
ghost use Rattle.growth_laws.specs.Steps.{tree_after, with_matched, with_root};

/// The tree of some rows and one more is the grown tree of these rows, for aggregations that are no
/// global, reverse nested or composite ones and have none below them.
pub fn one_more_row()
    ensures one { (all : List PlacedRow) (a : Agg) (rows : List PlacedRow) (row : PlacedRow) →
        IsTrue (is_plain a) → collected_node false all [] a (rows ++ row ∷ [])
        ≡ grown all a row (collected_node false all [] a rows) }
    ensures search { (all globals : List PlacedRow) (aggs : List Agg) (rows : List PlacedRow)
        (row : PlacedRow) → IsTrue (list_all is_plain aggs) →
        map (λ a. collected_node false all globals a (rows ++ row ∷ [])) aggs
        ≡ map (λ a. grown all a row (collected_node false all globals a rows)) aggs }
{}

/// The shard's tree of an aggregation is the cut of the tree that was collected without a cut.
pub fn answers_are_cut_trees()
    ensures { (all roots : List PlacedRow) (a : Agg) (rows : List PlacedRow) →
        collected_node true all roots a rows ≡ cut_tree a (collected_node false all roots a rows) }
{}

/// Buckets that stand in the order in which their keys came, sorted by key, grow as the sorted ones
/// do.
pub fn buckets_may_stand_as_they_came()
    ensures found { (gs : List Grower) (row : PlacedRow) (k : Key) (bs : List Bucket) (i : ℕ)
        (b : Bucket) → AreDistinct bs → IsAt k bs i b →
        sorted_by_key (set bs i (grown_bucket gs row b)) ≡ put_row gs row k (sorted_by_key bs) }
    ensures new { (gs : List Grower) (row : PlacedRow) (k : Key) (bs : List Bucket) →
        AreDistinct bs → has_key k (map bucket_key bs) ≡ false →
        sorted_by_key (bs ++ grown_bucket gs row (new_bucket gs k) ∷ [])
        ≡ put_row gs row k (sorted_by_key bs) }
{}

/// The rows that enclose those of two parts of a shard are those of the first part and then those
/// of the second. Row by row, the row around a new one is counted unless it lies around a row so
/// far.
pub fn enclosing_rows_add_up()
    ensures parts { (context : ℕ) (before after xs ys : List PlacedRow) → EncloseNone before ys →
        EncloseNone after xs → enclosing (before ++ after) context (xs ++ ys)
        ≡ enclosing (before ++ after) context xs ++ enclosing (before ++ after) context ys }
    ensures seen { (context : ℕ) (before behind rows : List PlacedRow) (outer row : PlacedRow) →
        IsAround context before outer behind rows row →
        list_any (λ i. is_within i outer) rows ≡ true →
        enclosing (before ++ outer ∷ behind) context (rows ++ row ∷ [])
        ≡ enclosing (before ++ outer ∷ behind) context rows }
    ensures new { (context : ℕ) (before behind rows : List PlacedRow) (outer row : PlacedRow) →
        IsAround context before outer behind rows row →
        list_any (λ i. is_within i outer) rows ≡ false →
        enclosing (before ++ outer ∷ behind) context (rows ++ row ∷ [])
        ≡ enclosing (before ++ outer ∷ behind) context rows ++ outer ∷ [] }
{}

/// The rows of a shard come document by document. So, whatever the kind of an aggregation, its tree
/// of rows of the first documents and rows of later ones is the tree of the first rows, gathered
/// with the others. Global aggregations stand at the top alone; there they count the roots that
/// they are given.
pub fn later_documents_are_gathered()
    ensures cut { (documents : List (List ℕ × Row)) (n : ℕ) → IsCutAt n (shard_rows documents) }
    ensures every_kind { (n : ℕ) (all : List PlacedRow) → IsCutAt n all → (a : Agg) →
        IsTrue (is_placed a false) → (rows more : List PlacedRow) → IsTrue (lie_before n rows) →
        IsTrue (lie_behind n more) → collected_node false all [] a (rows ++ more)
        ≡ gathered all a more (collected_node false all [] a rows) }
    ensures global { (n : ℕ) (all : List PlacedRow) → IsCutAt n all → (a : Agg) →
        IsTrue (is_global (out-Agg a).kind) → IsTrue (is_placed a true) →
        (globals more rows : List PlacedRow) → IsTrue (lie_before n globals) →
        IsTrue (lie_behind n more) → collected_node false all (globals ++ more) a rows
        ≡ counted all a more (collected_node false all globals a rows) }
{}

/// One row that is gathered is put at each of its own keys.
pub fn one_row_is_gathered_at_its_keys()
    ensures keys { (all : List PlacedRow) (k : Kind) (row : PlacedRow) →
        all_keys all k (row ∷ []) ≡ keys all k row }
    ensures rows { (all : List PlacedRow) (k : Kind) (row : PlacedRow) (q : Key) →
        has_key q (keys all k row) ≡ true → group all k (row ∷ []) q ≡ row ∷ [] }
{}

/// What the rows of a key add to the cost of a node: the bytes of its bucket with these rows, less
/// those of its bucket before, where there was one.
pub fn rows_add_the_bytes_of_their_bucket()
    ensures { (gs : List Gatherer) (rows : List PlacedRow) (k : Key) (bs : List Bucket)
        (error full cut : ℕ) → IsTrue (is_ascending (map bucket_key bs)) →
        node_cost (Keyed (put_rows gs rows k bs) error full cut)
        + option_map_or bucket_bytes (find (λ b. key_eq k (bucket_key b)) bs) 0
        ≡ node_cost (Keyed bs error full cut)
        + bucket_bytes (gathered_bucket gs rows (bucket_or_empty gs k bs)) }
{}

/// The trees of a task grow root by root: each matched root is gathered by the aggregations that
/// are no global ones, and each root behind them is counted by the global ones.
pub fn trees_grow_root_by_root()
    ensures trees { (search : Search) (all : List PlacedRow) (n : ℕ) →
        (built search all n).nodes ≡ map (λ a. tree_after search all a n) search.aggs }
    ensures matched { (search : Search) (documents : List (List ℕ × Row)) (a : Agg) (n : ℕ)
        (root : PlacedRow) → IsTrue (is_placed a true) →
        let all = shard_rows documents in slice_get (matched search all) n ≡ Some root →
        tree_after search all a (n + 1) ≡ with_matched all a root (tree_after search all a n) }
    ensures global { (search : Search) (documents : List (List ℕ × Row)) (a : Agg) (n : ℕ)
        (root : PlacedRow) → IsTrue (is_placed a true) →
        let all = shard_rows documents in let before = length (matched search all) in
        slice_get (global_roots search all) n ≡ Some root →
        tree_after search all a (before + n + 1)
        ≡ with_root all a root (tree_after search all a (before + n)) }
{}
