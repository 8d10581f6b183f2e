//! The codes of the last items of runs, by which the run of a key is told without a look at the runs. They are guesses, which no
//! contract rests on.

use crate::coded::{Code, HasCode};
use std::alloc::Global;

/// For each run the code that its last item had when one entered it.
#[derive(Drop)]
pub struct Lasts {
    codes: Vec<Code>,
}

impl Lasts {
    /// Of no run.
    pub fn new(alloc: Global) -> Self {
        Lasts {
            codes: Vec::new(alloc),
        }
    }

    /// The first run that does not end before a code.
    pub(crate) fn run_of(&self, code: Code) -> usize {
        self.codes.as_slice().partition_point(|last| *last < code)
    }

    // Takes the code of the last item of a run.
    fn renew<T: HasCode>(&mut self, runs: &[Vec<T>], run: usize) {
        if run >= self.codes.len() || run >= runs.len() {
            return;
        }
        if let Some(last) = runs[run].last() {
            self.codes[run] = last.code();
        }
    }

    /// Notes that an item has entered a run, of which there were `before` items: where there are fewer now, it was parted into
    /// two. Where memory is wanting the guesses are off.
    pub fn note<T: HasCode>(&mut self, runs: &[Vec<T>], run: usize, before: usize) {
        if self.codes.is_empty() || run_length(runs, run) < before {
            let place = run.min(self.codes.len());
            let _ = self.codes.insert(place, Code::default());
        }
        self.codes.truncate(runs.len());
        self.renew(runs, run);
        self.renew(runs, run.saturating_add(1));
    }
}

/// How many items a run has, 0 where it is none.
pub fn run_length<T>(runs: &[Vec<T>], run: usize) -> usize {
    match runs.get(run) {
        Some(run) => run.len(),
        None => 0,
    }
}
