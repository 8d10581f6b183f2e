//! Each function has a law as its contract, over all values of the definitions, and does nothing.
ghost use Rattle.std.specs.Prelude.{◌≡◌, ◌≢◌, ℕ, ◌≤◌, List, [], Err, IfErr, IfOk};
ghost use Rattle.serde_json.specs.Data.{Data};
ghost use Rattle.agg_model.specs.Lines.{Line};
ghost use Rattle.agg_model.specs.declared.bulk.Action.{Action};
ghost use Rattle.agg_model.specs.declared.limits.TheConstants.{MAX_SHARDS};
ghost use Rattle.agg_model.specs.declared.mapping.Mapping.{Mapping};
ghost use Rattle.agg_model.specs.declared.script_refusal.TheConstants.{BAD_HEADER};
ghost use Rattle.agg_reading.specs.declared.fault.RequestFault.TheVariants.{NotJson, Memory};
ghost use Rattle.agg_reading.specs.Action.{action_at};
ghost use Rattle.agg_reading.specs.Document.{document_at};
ghost use Rattle.agg_reading.specs.IndexLine.{index_line_at};
ghost use Rattle.agg_reading.specs.Json.{json_at};
ghost use Rattle.agg_reading.specs.Mapping.{mapping_at};
ghost use Rattle.agg_model.specs.MappingOrder.{IsOrdered};
ghost use Rattle.agg_reading.specs.Entries.{header_members};
ghost use Rattle.agg_reading.specs.Refusals.{RefusesWith, StopsWith, index_line_refusals, action_refusals, document_refusals, item_refusals, body_refusals, loading_refusals};
ghost use Rattle.agg_reading.specs.Request.{search_of, search_value_at};
ghost use Rattle.agg_reading.specs.Script.{loaded};
ghost use Rattle.agg_reading.specs.Store.{Store, applied};

/// A mapping that is read has at most `MAX_PATHS` fields and nested paths, and its paths stand in byte order; so has the
/// mapping of each index line.
pub fn mappings_that_are_read_stand_in_order()
    ensures mapping { (at : List ℕ) (d : Data) → IfOk (mapping_at at d) IsOrdered }
    ensures line { (bytes : List ℕ) → IfOk (index_line_at bytes) (λ l. IsOrdered l.mapping) }
{}

/// An index line that is read has 1 to `MAX_SHARDS` shards.
pub fn index_lines_have_shards()
    ensures { (bytes : List ℕ) → IfOk (index_line_at bytes) (λ l. (1 ≤ l.shards) × (l.shards ≤ MAX_SHARDS)) }
{}

/// A line of a script is refused with the numbers of that line alone, whether or not its bytes are JSON.
pub fn lines_are_refused_by_their_own_numbers()
    ensures index_line { (bytes : List ℕ) → RefusesWith index_line_refusals (index_line_at bytes) }
    ensures action { (index : List ℕ) (before : ℕ) (bytes : List ℕ) → RefusesWith action_refusals (action_at index before bytes) }
    ensures header { (line : ℕ) (bytes : List ℕ) → IfErr (header_members line bytes) (λ e. e ≡ record { number = BAD_HEADER; line = line; path = [] }) }
{}

/// The first two sections of a script are refused with the numbers of scripts alone.
pub fn scripts_are_refused_by_their_own_numbers()
    ensures { (lines : List Line) → StopsWith loading_refusals (loaded lines) }
{}

/// A document, and an action on a store, is refused with the numbers of items alone.
pub fn items_are_refused_by_their_own_numbers()
    ensures document { (m : Mapping) (source : List ℕ) → RefusesWith document_refusals (document_at m source) }
    ensures action { (m : Mapping) (action : Action) (store : Store) → RefusesWith item_refusals (applied m action store) }
{}

/// A body is `NotJson` exactly where its bytes have no reading as JSON. What is read is refused with the numbers of
/// bodies alone, and no definition lacks memory.
pub fn bodies_are_refused_by_their_own_numbers()
    ensures json { (m : Mapping) (body : List ℕ) → search_of m body ≡ Err NotJson → json_at body ≡ Err NotJson }
    ensures no_json { (m : Mapping) (body : List ℕ) → json_at body ≡ Err NotJson → search_of m body ≡ Err NotJson }
    ensures memory { (m : Mapping) (body : List ℕ) → search_of m body ≢ Err Memory }
    ensures numbers { (m : Mapping) (bytes : ℕ) (d : Data) → RefusesWith body_refusals (search_value_at m bytes d) }
{}
