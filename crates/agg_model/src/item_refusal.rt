//! The numbers of refused items of a bulk response (Elasticsearch Reference 8, 'Bulk API'). A refused item leaves the
//! store as it was, and the items after it go on.

/// The source line is not JSON, or no JSON object.
pub const SOURCE_NOT_OBJECT: u8 = 20;

/// A value has a JSON type that its field does not take, or an object or a scalar stands where the mapping has the other.
pub const WRONG_FIELD_TYPE: u8 = 21;

/// A whole number lies outside the range of its field's type.
pub const NUMBER_OUT_OF_RANGE: u8 = 22;

/// A keyword has more bytes than `limits::MAX_KEYWORD`.
pub const KEYWORD_TOO_LONG: u8 = 23;

/// The document has more nested objects than `limits::MAX_NESTED_OBJECTS`.
pub const TOO_MANY_NESTED_OBJECTS: u8 = 24;

/// A row has more values of one field than `limits::MAX_FIELD_VALUES`.
pub const TOO_MANY_FIELD_VALUES: u8 = 25;

/// A `create` names an id that has a live document.
pub const VERSION_CONFLICT: u8 = 26;

/// The mapping is strict, and a member of the document is not in it.
pub const STRICT_MAPPING: u8 = 27;

/// With this document the live documents would weigh `limits::WEIGHT_LIMIT` or more.
pub const INDEX_FULL: u8 = 28;
