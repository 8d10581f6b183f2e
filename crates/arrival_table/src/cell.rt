//! What a slot of the table may hold, and what loads and results stand for.
ghost use Rattle.arrival_moves.specs.declared.label.Label.{Label};

/// What stands for some tasks. It has no calls; its one meaning is the label.
pub trait Labelled {
    ghost label: { Self → Label };
}

/// A slot's value: the load of a task, or a result.
#[derive(Drop)]
pub(crate) enum Cell<A, R> {
    Vacant,
    Load(A),
    Outcome(R),
}
