//! What pipelines say under a name, and in the object of a bucket.
use agg_model::{BucketAnswer, List, Note, Text};

/// A bucket with the notes in its object. The places of a note are those from this object on.
#[derive(Drop)]
pub struct RemarkedBucket {
    pub bucket: BucketAnswer,
    pub notes: List<Note>,
}

/// What prints under one name of an object.
#[derive(Drop)]
pub enum Said {
    Notes(List<Note>),
    /// The path of the first value outside signed 64 bits.
    Wide(Text),
}
