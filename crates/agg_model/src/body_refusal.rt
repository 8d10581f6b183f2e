//! The codes of refused search bodies (Elasticsearch Reference 8, 'Search API'). A refusal has the JSON pointer of the
//! first thing that breaks a rule, and the search is answered with status 400.

/// The body is no JSON object.
pub const BODY_NOT_OBJECT: u16 = 100;

/// An object has a member that its kind does not know.
pub const UNKNOWN_MEMBER: u16 = 101;

/// A required member is absent; the pointer is that of its object.
pub const MISSING_MEMBER: u16 = 102;

/// A value has the wrong JSON type.
pub const WRONG_TYPE: u16 = 103;

/// A value lies outside its range or set, or is no value for its field.
pub const OUT_OF_RANGE: u16 = 104;

/// There is no query of this name.
pub const UNKNOWN_QUERY: u16 = 105;

/// There is no kind of aggregation, or of a source of a composite, of this name.
pub const UNKNOWN_KIND: u16 = 106;

/// An object that must have exactly one member, or exactly one field or kind beside others, has none or several; or it
/// has both `aggs` and `aggregations`.
pub const NOT_ONE_MEMBER: u16 = 107;

/// The mapping has no field of this path, or its type does not fit the use.
pub const NO_SUCH_FIELD: u16 = 108;

/// The mapping has no nested path of this name in the place that is asked for, or there is none to leave.
pub const NO_SUCH_PATH: u16 = 109;

/// A metric or a pipeline has children, or a kind that is for the top alone stands beneath another.
pub const MISPLACED_AGGREGATION: u16 = 110;

/// There are more aggregations, queries, levels, filters, sources or list values than the limits allow.
pub const LIMIT_EXCEEDED: u16 = 111;

/// The name of an aggregation, filter or source is empty, too long, or not free.
pub const INVALID_NAME: u16 = 112;

/// An order names no child that it can compare.
pub const NO_SUCH_CHILD: u16 = 113;

/// A path of a pipeline names no value of the buckets that it is about.
pub const NO_SUCH_PIPE_PATH: u16 = 114;

/// A pipeline stands where its kind may not, or is the second `bucket_sort` of one aggregation.
pub const MISPLACED_PIPELINE: u16 = 115;
