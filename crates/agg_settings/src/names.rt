//! Names of settings, in entries of `-E` and in settings lines.

pub(crate) const HEAP_SIZE: &str = "heap_size";

pub(crate) const MAX_BUCKETS: &str = "search.max_buckets";

pub(crate) const BATCH: &str = "batched_reduce_size";

pub(crate) const TOTAL: &str = "indices.breaker.total.limit";

pub(crate) const REQUEST: &str = "indices.breaker.request.limit";

pub(crate) const FIELDDATA: &str = "indices.breaker.fielddata.limit";

pub(crate) const INFLIGHT: &str = "network.breaker.inflight_requests.limit";

pub(crate) const REAL_MEMORY: &str = "indices.breaker.total.use_real_memory";
