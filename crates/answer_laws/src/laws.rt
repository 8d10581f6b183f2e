//! Laws of the definitions of answers. Each function has a law as its contract, over all values of the definitions, and does nothing.
ghost use Rattle.std.specs.List.{AllByRecursion, list_all};
ghost use Rattle.std.specs.Prelude.{◌≡◌, ◌≢◌, ◌≤◌, ◌∷◌, ◌++◌, ◌+◌, ◌*◌, [], ℕ, false, true, flat_map, length, List, map, slice_get};
ghost use Rattle.std.specs.Prelude.{IfOk, IsTrue, None, Ok, Result, Some};
ghost use Rattle.agg_model.specs.declared.aggregation.Agg.{Agg, out-Agg};
ghost use Rattle.agg_model.specs.declared.aggregation.Search.{Search};
ghost use Rattle.agg_model.specs.declared.answer.BucketAnswer.{out-BucketAnswer};
ghost use Rattle.agg_model.specs.declared.answer.NodeAnswer.{NodeAnswer, out-NodeAnswer};
ghost use Rattle.agg_model.specs.declared.breaker.Child.TheVariants as child;
ghost use Rattle.agg_model.specs.declared.breaker.Limits.{Limits};
ghost use Rattle.agg_model.specs.declared.outcome.Failure.{Failure};
ghost use Rattle.agg_model.specs.declared.outcome.Outcome.TheVariants.{Memory};
ghost use Rattle.agg_model.specs.declared.partial.Partial.{Partial};
ghost use Rattle.agg_model.specs.declared.settings.Settings.{Settings};
ghost use Rattle.agg_model.specs.declared.settings.Usage.{Usage};
ghost use Rattle.agg_evaluation.specs.SearchFits.{search_fits};
ghost use Rattle.agg_evaluation.specs.TrueCounts.{BucketPath, aggs_at, true_count, true_key_count};
ghost use Rattle.agg_evaluation.specs.Whole.{parts as node_parts};
ghost use Rattle.agg_settings.specs.Changes.{changed};
ghost use Rattle.agg_settings.specs.Settings.{settings_of};
ghost use Rattle.agg_spec.specs.Answers.{ArePages, Change, IsAllowed, Recent};
ghost use Rattle.agg_spec.specs.Charges.{lowered, no_amounts, Run};
ghost use Rattle.agg_spec.specs.Complete.{HasRoom, HasRoomFor, IsPlain, ScriptFits};
ghost use Rattle.agg_spec.specs.Failures.{AreFailures, unfailed};
ghost use Rattle.agg_spec.specs.Index.{Index, rows_in};
ghost use Rattle.agg_spec.specs.Outcome.{answer_of, Request, response_length, whole_of};
ghost use Rattle.agg_spec.specs.Output.{answered, EndsWell, HasAnswers, IsOutput, IsWhole, IsWholeOf};
ghost use Rattle.agg_spec.specs.Pages.{is_paged};
ghost use Rattle.agg_spec.specs.Reduction.{after_batches, after_last, after_tasks, begun, merge_steps, Task, task_of, task_steps};
ghost use Rattle.agg_spec.specs.Requests.{LoadedScript, Segment};
ghost use Rattle.agg_spec.specs.Rounds.{all_quiet, plain_answer, Round};
ghost use Rattle.agg_spec.specs.Solo.{after_requests, idle, outcome_with, solo_answer, solo_run};
ghost use Rattle.agg_spec.specs.Written.{all_printed, answer, has_memory, Line};
ghost use Rattle.answer_laws.specs.Completing.{
  ArePlain,
  AreQuiet,
  HasPlainAnswers,
  HasPlainRounds,
  HasRoomHowever,
  HaveRoom,
  IsAlone,
  IsInFullUnlessMemory,
  IsPlainWithRoom,
  KeepsAlone,
  KeepsWorkers,
  TellsRoom,
  script_of,
};
ghost use Rattle.answer_laws.specs.Held.{costs_of, GivesBackHeld, HoldsMore, HoldsResults, IsPaid};
ghost use Rattle.answer_laws.specs.LineCounts.{entry_count, KeepsWaves};
ghost use Rattle.answer_laws.specs.Reduced.{PrintTheAnswer, TellsTheWhole};
ghost use Rattle.answer_laws.specs.Scans.{IsAnsweredByAll, searches_of};
ghost use Rattle.count_laws.specs.CompositeGroups.{composite_groups};
ghost use Rattle.count_laws.specs.Paths.{answer_of_shards, answered_by_shard};
ghost use Rattle.count_laws.specs.ReturnedPaths.{answers_at, is_returned};
ghost use Rattle.count_laws.specs.Scans.{IsScan, page_groups};
ghost use Rattle.count_laws.specs.TermsErrors.{IsBoundOfAll, IsTermsByCount, IsWithinError};
ghost use Rattle.count_laws.specs.TermsSums.{below_minimum_count, minimum_of_terms, other_count, returned_count, whole_of_rows};

/// No more shards fail than there are.
pub fn no_more_failures_than_shards()
    ensures { (shards : ℕ) (failures : List Failure) → AreFailures shards failures → length failures ≤ shards }
{}

/// Each search of a round that may be answered so has one answer, with any number of workers.
pub fn each_search_of_a_round_has_one_answer()
    ensures { (index : Index) (columns : ℕ) (round : Round) → IsAllowed index columns round →
        length round.answers ≡ length round.requests }
{}

/// Where searches run in waves, what answers some segments is one line for the bulk actions, one for each search and one for
/// each settings line, with any number of workers. A settings line changes no waves.
pub fn each_entry_of_a_script_has_one_line()
    ensures lines { (change : Change) (words : Settings) (script : LoadedScript) (segments : List Segment) (written : List Line)
        (at_end : Recent) → KeepsWaves change words → words.scan ≡ false → 1 ≤ words.width →
        HasAnswers change words script segments written at_end → length written ≡ 1 + entry_count segments }
    ensures kept { (words : Settings) → KeepsWaves changed words }
{}

/// With any number of workers, an answer of a round that is a response or the refusal of a body is the outcome of the whole
/// reduction of all shards that it does not name as failed: breakers decide whether there is a response, and not what it says.
pub fn answers_tell_the_whole_reduction()
    ensures { (index : Index) (columns : ℕ) (round : Round) → IsAllowed index columns round → TellsTheWhole index round }
{}

/// The line of a response is the text of the final answer of the shards that it does not name as failed, with any number of workers.
pub fn responses_print_the_answer_of_the_shards_left()
    ensures { (index : Index) (columns : ℕ) (round : Round) → IsAllowed index columns round → PrintTheAnswer index round }
{}

/// What the counts say that stand in such an answer, at the end of a path of returned buckets, some of them filled maybe, on which no
/// terms were cut: they are of the rows of the shards that did not fail. Its hits are those that match. Terms have all keys of these rows;
/// by descending count each returned term is within its error and within that of the answer, which a term that no shard returned does not
/// pass; and where no term was cut there, each returned bucket has its true count.
pub fn counts_of_a_response_are_of_the_shards_left()
    ensures hits { (index : Index) (search : Search) (failures : List Failure) →
        (answer_of index search (unfailed index failures)).hits ≡ true_count (map (rows_in index) (unfailed index failures)) search [] }
    ensures sums { (index : Index) (search : Search) (failures : List Failure) (path : BucketPath) (place : ℕ) (agg : Agg) (given : NodeAnswer)
        (min_doc_count : ℕ) → IsTrue (search_fits index.mapping search) →
        IsTrue (is_returned search.aggs (whole_of index search (unfailed index failures)).nodes path) →
        slice_get (aggs_at search.aggs path) place ≡ Some agg → minimum_of_terms (out-Agg agg).kind ≡ Some min_doc_count →
        slice_get (answers_at (answer_of index search (unfailed index failures)).nodes path) place ≡ Some given →
        returned_count given + other_count given
        + below_minimum_count min_doc_count
        (node_parts (whole_of_rows agg (answered_by_shard search path (map (rows_in index) (unfailed index failures))))).buckets
        ≡ true_key_count (map (rows_in index) (unfailed index failures)) search path place }
    ensures errors { (index : Index) (search : Search) (failures : List Failure) (path : BucketPath) (place : ℕ) (agg : Agg)
        (given : NodeAnswer) → IsTrue (search_fits index.mapping search) →
        IsTrue (is_returned search.aggs (whole_of index search (unfailed index failures)).nodes path) →
        slice_get (aggs_at search.aggs path) place ≡ Some agg → IsTermsByCount (out-Agg agg).kind →
        slice_get (answers_at (answer_of index search (unfailed index failures)).nodes path) place ≡ Some given →
        AllByRecursion (IsWithinError (λ key. true_count (map (rows_in index) (unfailed index failures)) search (path ++ (place, key) ∷ [])))
        (out-NodeAnswer given).buckets }
    ensures bound { (index : Index) (search : Search) (failures : List Failure) (path : BucketPath) (place : ℕ) (agg : Agg)
        (given : NodeAnswer) → IsTrue (search_fits index.mapping search) →
        IsTrue (is_returned search.aggs (whole_of index search (unfailed index failures)).nodes path) →
        slice_get (aggs_at search.aggs path) place ≡ Some agg → IsTermsByCount (out-Agg agg).kind →
        slice_get (answers_at (answer_of index search (unfailed index failures)).nodes path) place ≡ Some given →
        IsBoundOfAll (λ key. true_count (map (rows_in index) (unfailed index failures)) search (path ++ (place, key) ∷ []))
        (node_parts (whole_of_rows agg (answered_by_shard search path (map (rows_in index) (unfailed index failures))))).buckets given }
    ensures counts { (index : Index) (search : Search) (failures : List Failure) (path : BucketPath) (place : ℕ) (agg : Agg)
        (given : NodeAnswer) → IsTrue (search_fits index.mapping search) →
        IsTrue (is_returned search.aggs (whole_of index search (unfailed index failures)).nodes path) →
        slice_get (aggs_at search.aggs path) place ≡ Some agg →
        (node_parts (whole_of_rows agg (answered_by_shard search path (map (rows_in index) (unfailed index failures))))).cut ≡ 0 →
        slice_get (answers_at (answer_of index search (unfailed index failures)).nodes path) place ≡ Some given →
        AllByRecursion (λ b. (out-BucketAnswer b).count
        ≡ true_count (map (rows_in index) (unfailed index failures)) search (path ++ (place, (out-BucketAnswer b).key) ∷ []))
        (out-NodeAnswer given).buckets }
{}

/// Whatever the status, no line of an output is the answer of a search that wanted memory.
pub fn no_output_tells_of_want_of_memory()
    ensures { (change : Change) (words : Result Settings Usage) (input : List ℕ) (read status : ℕ)
        (before after : List Line) (failures : List Failure) (piece : List ℕ) →
        IsOutput change words input read status
        (before ++ answer (record { outcome = Memory; failures = failures }) ∷ after) piece → ⊥ }
{}

/// A task of a search, on whatever rows, never holds less than nothing, and at its end the cost of its answer.
pub fn tasks_hold_the_cost_of_their_answers()
    ensures { (index : Index) (search : Search) (shard : ℕ) → IsPaid search (task_of index search shard) }
{}

/// Between its tasks, in whatever batches they stand, and after its last merge a search holds what its results cost. What a
/// task holds whose shard is left out is given back.
pub fn a_search_holds_what_its_results_cost()
    ensures between_tasks { (limits : Limits) (search : Search) (start : Run) (parts : List (List Task)) (tasks : List Task) →
        AllByRecursion (AllByRecursion (IsPaid search)) parts → AllByRecursion (IsPaid search) tasks →
        HoldsResults start.holds (after_tasks limits search (after_batches limits search (begun start) parts) tasks) }
    ensures in_the_end { (limits : Limits) (search : Search) (start : Run) (parts : List (List Task)) →
        AllByRecursion (AllByRecursion (IsPaid search)) parts →
        HoldsResults start.holds (after_last limits search (after_batches limits search (begun start) parts)) }
{}

/// No step of a task gives back more than is held when it comes, and no step of a merge does, where the costs of the results
/// that it merges are held before.
pub fn no_step_gives_back_more_than_is_held()
    ensures tasks { (limits : Limits) (search : Search) (start : Run) (task : Task) → IsPaid search task →
        GivesBackHeld limits start (task_steps task) }
    ensures merges { (limits : Limits) (search : Search) (start : Run) (results : List Partial) →
        costs_of results ≤ start.holds.request → costs_of results ≤ start.holds.parent →
        GivesBackHeld limits start (merge_steps limits search results) }
{}

/// At its end a search by one worker that no breaker ended holds its body, its results and its response beside what was held
/// before it. Once these are given back, what was held before is all that is held.
pub fn a_search_by_one_worker_gives_all_back()
    ensures holds { (settings : Settings) (index : Index) (start : Run) (request : Request) →
        (solo_run settings index start request).run.refused ≡ None →
        HoldsMore (costs_of (solo_run settings index start request).results
        + response_length (outcome_with settings index request (solo_run settings index start request)))
        (2 * request.bytes) start.holds (solo_run settings index start request).run.holds }
    ensures given_back { (settings : Settings) (index : Index) (start : Run) (request : Request) →
        (solo_run settings index start request).run.refused ≡ None →
        lowered child.Inflight (2 * request.bytes)
        (lowered child.Request (costs_of (solo_run settings index start request).results
        + response_length (outcome_with settings index request (solo_run settings index start request)))
        (solo_run settings index start request).run.holds) ≡ start.holds }
    ensures before_the_next { (settings : Settings) (index : Index) (start : Run) (requests : List Request) →
        (after_requests settings index start requests).holds ≡ start.holds }
{}

/// The rounds of a scan whose pages are all answered, each by all shards, ask for all pages of the scan, one after another.
/// What these return, one behind the other, are all groups that come after the body's key, each once, in the order of the
/// sources and with its true count, where the search is made for the mapping.
pub fn rounds_of_a_scan_have_all_groups()
    ensures pages { (index : Index) (columns bytes : ℕ) (request : Search) (rounds : List Round) →
        IsTrue (is_paged request.aggs) →
        ArePages index columns (record { bytes = bytes; search = Ok request } ∷ []) rounds →
        AllByRecursion IsAnsweredByAll rounds → IsScan index.shards (Some request) (searches_of rounds) }
    ensures groups { (index : Index) (columns bytes : ℕ) (request : Search) (rounds : List Round) →
        IsTrue (search_fits index.mapping request) → IsTrue (is_paged request.aggs) →
        ArePages index columns (record { bytes = bytes; search = Ok request } ∷ []) rounds →
        AllByRecursion IsAnsweredByAll rounds →
        flat_map (page_groups index.shards) (searches_of rounds) ≡ composite_groups index.shards request }
    ensures answers { (index : Index) (request : Search) →
        answer_of index request (unfailed index []) ≡ answer_of_shards request index.shards }
{}

/// Where one worker runs one search at a time, a search of which no breaker refuses a charge is answered by the whole
/// reduction with no shard left out. So is, with any number of workers, each search of an allowed round that has room and in
/// which none wants memory. Such answers tell of no refusal by a breaker.
pub fn searches_that_have_room_are_answered_in_full()
    ensures search { (settings : Settings) (index : Index) (columns : ℕ) (request : Request) →
        (solo_run settings index (idle columns) request).run.trips ≡ no_amounts →
        solo_answer settings index (idle columns) request ≡ plain_answer index settings request }
    ensures round { (index : Index) (columns : ℕ) (round : Round) → HasRoom index columns round → IsAllowed index columns round →
        IsTrue (list_all (λ a. has_memory a.outcome) round.answers) → IsPlain index columns round }
    ensures quiet { (index : Index) (columns : ℕ) (round : Round) → IsPlain index columns round →
        IsTrue (all_quiet round.answers) }
{}

/// Where each round of a script has room and no search wants memory, each search of the script is answered by the whole
/// reduction with no shard left out, with any number of workers and whatever the settings lines change. No answer is then a
/// breaker exception, and none tells of a failed shard. There is one list of such lines.
pub fn scripts_that_have_room_are_answered_in_full()
    ensures rounds { (change : Change) (words : Settings) (script : LoadedScript) (segments : List Segment) (written : List Line)
        (at_end : Recent) (has : HasAnswers change words script segments written at_end) → IsTrue (all_printed written) →
        HaveRoom script has.rounds → ArePlain script has.rounds }
    ensures answers { (change : Change) (words : Settings) (script : LoadedScript) (segments : List Segment) (written : List Line)
        (at_end : Recent) (has : HasAnswers change words script segments written at_end) → IsTrue (all_printed written) →
        HaveRoom script has.rounds → AreQuiet written }
    ensures alike { (change : Change) (words : Settings) (script : LoadedScript) (segments : List Segment) (one other : List Line)
        (one_end other_end : Recent) (has : HasAnswers change words script segments one one_end)
        (also : HasAnswers change words script segments other other_end) → IsTrue (all_printed one) → IsTrue (all_printed other) →
        HaveRoom script has.rounds → HaveRoom script also.rounds → one ≡ other }
{}

/// A script that is loaded and not refused has whole outputs of status 0 alone: all its searches are answered, and the
/// statistics follow. Where its rounds have room and no search wants memory, these are the lines of plain rounds, so that no
/// answer is a breaker exception, and none tells of a failed shard.
pub fn a_script_that_is_not_refused_is_answered_to_its_end()
    ensures status { (change : Change) (words : Settings) (script : LoadedScript) (status : ℕ) (written : List Line) →
        script.refused ≡ None → IsWholeOf change words (answered script) status written →
        (status ≡ 0) × EndsWell change words script written }
    ensures rounds { (change : Change) (words : Settings) (script : LoadedScript) (written : List Line)
        (ends : EndsWell change words script written) → IsTrue (all_printed written) →
        HaveRoom script ends.answered.rounds → ArePlain script ends.answered.rounds }
    ensures answers { (change : Change) (words : Settings) (script : LoadedScript) (written : List Line)
        (ends : EndsWell change words script written) → IsTrue (all_printed written) →
        HaveRoom script ends.answered.rounds → AreQuiet written }
{}

/// Where one worker runs one search at a time and asks for no pages, the input alone tells whether there is room: a whole output
/// for it in which no search wants memory has status 0, and all its rounds are plain.
pub fn inputs_that_have_room_are_answered_in_full()
    ensures output { (change : Change) (words : Settings) (input : List ℕ) (status : ℕ) (written : List Line) →
        KeepsAlone change words → IsAlone words → HasRoomFor change words input →
        IsWhole change (Ok words) input status written → IsTrue (all_printed written) → (status ≡ 0) × AreQuiet written }
    ensures rounds { (change : Change) (words : Settings) (script : LoadedScript) (written : List Line) →
        KeepsAlone change words → IsAlone words → ScriptFits change words (answered script) →
        (ends : EndsWell change words script written) → IsTrue (all_printed written) → ArePlain script ends.answered.rounds }
    ensures kept { (words : Settings) → KeepsAlone changed words }
{}

/// Each list of searches that are made for the mapping has whole rounds that are answered by the whole reduction, also where pages are
/// asked for: a scan comes to an end. So has each script that was loaded.
pub fn scans_come_to_an_end()
    ensures rounds { (index : Index) (columns : ℕ) (settings : Settings) (requests : List Request) →
        AllByRecursion (λ r. IfOk r.search (λ s. IsTrue (search_fits index.mapping s))) requests →
        HasPlainRounds index columns settings requests }
    ensures script { (change : Change) (words : Settings) (input : List ℕ) (script : LoadedScript) →
        script_of words input ≡ answered script → HasPlainAnswers change words script }
{}

/// Where the words are in the grammar, the input has room however its searches are answered, and neither the source nor the sink failed
/// (so that the status is not 3 and not 4), a run ends with status 0 and answers all searches by the whole reduction, with no exception
/// and no failed shard, or it ran out of memory: status 7. No line that was written by then, or before the sink failed, is an exception
/// or tells of a failed shard. So it is with any number of workers, with settings lines, and where pages are asked for. An input has room
/// so, where it has it when all is answered by the whole reduction, and one worker runs one search at a time or no search allows partial
/// results.
pub fn runs_that_have_room_are_answered_in_full()
    ensures output { (change : Change) (words : Settings) (input : List ℕ) (read status : ℕ) (written : List Line) (piece : List ℕ) →
        HasRoomHowever change words input → IsOutput change (Ok words) input read status written piece → status ≢ 3 → status ≢ 4 →
        IsInFullUnlessMemory change words input status written piece }
    ensures quiet { (change : Change) (words : Settings) (input : List ℕ) (read status : ℕ) (written : List Line) (piece : List ℕ) →
        HasRoomHowever change words input → IsOutput change (Ok words) input read status written piece → status ≢ 3 → AreQuiet written }
    ensures room { (change : Change) (words : Settings) (input : List ℕ) → KeepsWorkers change words → HasRoomFor change words input →
        TellsRoom words (script_of words input) → HasRoomHowever change words input }
    ensures by_words { (words : List (List ℕ)) (settings : Settings) (input : List ℕ) (read status : ℕ) (written : List Line)
        (piece : List ℕ) → settings_of true words ≡ Ok settings → HasRoomFor changed settings input →
        TellsRoom settings (script_of settings input) →
        IsOutput changed (settings_of true words) input read status written piece → status ≢ 3 → status ≢ 4 →
        IsInFullUnlessMemory changed settings input status written piece }
    ensures as_answered { (change : Change) (words : Settings) (input : List ℕ) (read status : ℕ) (written : List Line) (piece : List ℕ)
        (script : LoadedScript) → script_of words input ≡ answered script → script.refused ≡ None →
        IsOutput change (Ok words) input read status written piece → status ≢ 3 → status ≢ 4 →
        IsPlainWithRoom change words script status written piece }
    ensures kept { (words : Settings) → KeepsWorkers changed words }
{}
