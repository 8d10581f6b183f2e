//! What becomes of a key that a page is offered.
use agg_model::Bucket;

/// What `FirstKeys::offer` made of a key.
#[derive(Drop)]
pub enum Offered {
    /// The key was in the page, and its count rose by one.
    Counted,
    /// The key is new in the page; the last bucket of a full page left it.
    Entered { evicted: Option<Bucket> },
    /// The key is not in the page.
    Outside,
}
