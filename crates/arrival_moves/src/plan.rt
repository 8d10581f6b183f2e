//! What the table is opened with.
ghost use Rattle.std.specs.Prelude.{◌≡◌, ◌<◌};
ghost use Rattle.arrival_moves.specs.Plans.{task_count, search_of};

use agg_model::List;

/// The search of each task, the number of searches, and how many results a batch has at most.
#[derive(Drop)]
pub struct Plan {
    pub tasks: List<u32>,
    pub searches: u32,
    pub batch: u32,
}

impl Plan {
    /// The search of a task.
    pub fn search_of(&self, task: u32) -> u32
        requires range { task < task_count self.now }
        ensures { result ≡ search_of self.now task }
    {
        match self.tasks.get(task as usize) {
            Some(search) => *search,
            None => unreachable!(),
        }
    }
}
