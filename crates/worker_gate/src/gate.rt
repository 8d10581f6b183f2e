//! Where a worker stands, told to whoever wants to look.

/// What a worker has just done.
#[derive(Clone, Copy, Debug, PartialEq, Eq)]
pub enum Point {
    /// It claimed a task, and has not yet begun it.
    Claimed,
    /// It collected a task, whose result is in its slot.
    Collected,
    /// It merged the batch that was whole with this task's result.
    Merged,
}

/// A gate that workers pass with the number of a task: search by search, and shard by shard within each, from 0. It has no
/// answer, and nothing that is promised depends on it.
pub trait Gate: Sync {
    fn pass(&self, task: u32, point: Point);
}

/// A gate that is lent as any gate.
impl Gate for &dyn Gate {
    fn pass(&self, task: u32, point: Point) {
        (**self).pass(task, point);
    }
}

/// A gate that is always open.
pub struct OpenGate;

impl Gate for OpenGate {
    fn pass(&self, _task: u32, _point: Point) {}
}
