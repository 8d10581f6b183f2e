//! How much the engine takes. What passes a limit is refused, or ends the run, and is never cut. Limits that
//! Elasticsearch has too are named as its Reference (version 8) names them; all others are limits of this engine.

/// Bytes of a line, without its newline; a limit of this engine.
pub const MAX_LINE: usize = 1_048_576;

/// Bytes of an input; a limit of this engine.
pub const MAX_INPUT: u64 = 268_435_456;

/// Bulk actions of a script; a limit of this engine.
pub const MAX_ACTIONS: usize = 1_048_576;

/// Bytes of the name of an index ('Create index API', 'Path parameters').
pub const MAX_INDEX_NAME: usize = 255;

/// Shards of an index ('Index modules', `index.number_of_shards`).
pub const MAX_SHARDS: u32 = 1_024;

/// Fields and nested paths of a mapping together ('Mapping limit settings', `index.mapping.total_fields.limit`).
pub const MAX_PATHS: usize = 1_000;

/// Levels of `properties` in a mapping ('Mapping limit settings', `index.mapping.depth.limit`).
pub const MAX_PROPERTY_LEVELS: u32 = 20;

/// Bytes of one name in `properties`; a limit of this engine.
pub const MAX_FIELD_NAME: usize = 255;

/// Characters that `ignore_above` may name ('ignore_above'), the greatest number of signed 32 bits.
pub const MAX_IGNORE_ABOVE: u64 = 2_147_483_647;

/// Bytes of the id of a document ('_id field').
pub const MAX_ID: usize = 512;

/// Digits of a whole number that is given as a text; a limit of this engine.
pub const MAX_DIGITS: usize = 38;

/// Bytes of a keyword ('ignore_above', the limit of a term).
pub const MAX_KEYWORD: usize = 32_766;

/// Values of one field in one row of a document; a limit of this engine.
pub const MAX_FIELD_VALUES: usize = 1_024;

/// Nested objects of a document ('Mapping limit settings', `index.mapping.nested_objects.limit`).
pub const MAX_NESTED_OBJECTS: u32 = 10_000;

/// The live documents of an index weigh less than this: rows, values and bytes of keywords together. So row numbers fit
/// 32 bits; a limit of this engine.
pub const WEIGHT_LIMIT: u64 = 4_294_967_296;

/// Queries of a search, those in its aggregations too ('Search settings', `indices.query.bool.max_clause_count`).
pub const MAX_QUERIES: u32 = 1_024;

/// Levels of queries within queries; a limit of this engine.
pub const MAX_QUERY_LEVELS: u32 = 32;

/// Items of a list of values or ids in a query, an `include` or an `exclude` ('Terms query',
/// `index.max_terms_count`).
pub const MAX_LIST_VALUES: usize = 65_536;

/// What `minimum_should_match` may name; a limit of this engine.
pub const MAX_SHOULD_MATCH: u64 = 1_024;

/// Aggregations of a search; a limit of this engine.
pub const MAX_AGGREGATIONS: u32 = 256;

/// Levels of aggregations beneath one another; a limit of this engine.
pub const MAX_AGGREGATION_LEVELS: u32 = 16;

/// Bytes of the name of an aggregation, a filter or a source; a limit of this engine.
pub const MAX_NAME: usize = 512;

/// Filters of one `filters` aggregation; a limit of this engine.
pub const MAX_FILTERS: usize = 256;

/// Orders of one aggregation or `bucket_sort`; a limit of this engine.
pub const MAX_ORDERS: usize = 4;

/// Sources of one `composite` aggregation; a limit of this engine.
pub const MAX_SOURCES: usize = 16;

/// What `size` and `shard_size` of a `terms` aggregation, and `from` and `size` of a `bucket_sort`, may name: the
/// greatest number of signed 32 bits.
pub const MAX_SIZE: u32 = 2_147_483_647;

/// What `size` of a `composite` aggregation may name; a limit of this engine.
pub const MAX_PAGE: u32 = 65_536;

/// Keys that one root row may have at a `composite` aggregation; a limit of this engine.
pub const MAX_COMBINATIONS: u64 = 65_536;

/// Buckets of an answer where no other limit is set ('Search settings', `search.max_buckets`).
pub const DEFAULT_MAX_BUCKETS: u64 = 65_536;

/// What `search.max_buckets` may name; a limit of this engine.
pub const GREATEST_MAX_BUCKETS: u64 = 1_000_000;

/// Workers of a run, and searches that are answered at a time; a limit of this engine.
pub const MAX_AT_ONCE: u32 = 64;

/// The least number of results that are merged as one batch ('Search API', `batched_reduce_size`).
pub const MIN_BATCH: u32 = 2;

/// The greatest number of results that are merged as one batch; a limit of this engine.
pub const MAX_BATCH: u32 = 1_024;

/// Results that are merged as one batch where no other number is set ('Search API', `batched_reduce_size`).
pub const DEFAULT_BATCH: u32 = 512;

/// Bytes that a size may name, 1pb; a limit of this engine.
pub const MAX_BYTE_SIZE: u64 = 1_125_899_906_842_624;

/// Bytes of the heap where no other size is set, 1gb.
pub const DEFAULT_HEAP_SIZE: u64 = 1_073_741_824;

/// Documents that `--generate` may name; a limit of this engine.
pub const MAX_GENERATED_DOCUMENTS: u64 = 100_000;

/// Shards that `--generate` may name; a limit of this engine.
pub const MAX_GENERATED_SHARDS: u64 = 64;
