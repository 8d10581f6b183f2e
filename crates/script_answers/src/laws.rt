//! Laws of the definitions. Each function has a law as its contract, over all values of the definitions, and does nothing.
ghost use Rattle.std.specs.Prelude.{◌≡◌, List};
ghost use Rattle.agg_listen.specs.Standing.{Standing, all_having_heard_each};
ghost use Rattle.agg_spec.specs.Written.{Line};
ghost use Rattle.script_answers.specs.Hearing.{heard_of};
ghost use Rattle.script_answers.specs.Outputs.{after_all};

/// Of an output from its first line on, the listeners hear of each answer to a search once, in the order of the lines, by the
/// number of its line, its status and its bytes, and of nothing else.
pub fn listeners_hear_of_the_answers()
    ensures { (written : List Line) (all : List Standing) →
        (after_all written (record { line = 1; listeners = all })).listeners ≡ all_having_heard_each (heard_of written) all }
{}
