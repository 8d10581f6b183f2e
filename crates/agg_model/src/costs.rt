//! What is charged to the circuit breakers (Elasticsearch Reference 8, 'Circuit breaker settings'), in bytes, and the
//! overheads that the statistics show, in per cent. The costs are a model of this engine, not sizes in memory.

/// Bytes of an instance of an aggregation.
pub const NODE_BYTES: u64 = 512;

/// Bytes of a bucket, beside those of its key.
pub const BUCKET_BYTES: u64 = 128;

/// Bytes that a task holds from its beginning to its end.
pub const TASK_BYTES: u64 = 4_096;

/// The overhead of `request`, `indices.breaker.request.overhead`.
pub const REQUEST_OVERHEAD: u32 = 100;

/// The overhead of `fielddata`, `indices.breaker.fielddata.overhead`.
pub const FIELDDATA_OVERHEAD: u32 = 103;

/// The overhead of `inflight_requests`, `network.breaker.inflight_requests.overhead`.
pub const INFLIGHT_OVERHEAD: u32 = 200;

/// The overhead of the parent breaker.
pub const PARENT_OVERHEAD: u32 = 100;
