//! The numbers of refused scripts. A script that is refused is read no further, and the run ends with status 5.

/// The script asks for a form that this engine does not build yet.
pub const NOT_BUILT: u8 = 29;

/// A line has more bytes than `limits::MAX_LINE`.
pub const LINE_TOO_LONG: u8 = 30;

/// The index line breaks a rule of the index, its settings or its mapping; this refusal alone has a pointer.
pub const BAD_INDEX_LINE: u8 = 31;

/// A line that should be a bulk action is none, or one of its members breaks a rule.
pub const MALFORMED_ACTION: u8 = 32;

/// A bulk action is an `update`.
pub const UPDATE_NOT_SUPPORTED: u8 = 33;

/// An `index` or `create` has no source line after it.
pub const MISSING_SOURCE: u8 = 34;

/// There are more bulk actions than `limits::MAX_ACTIONS`.
pub const TOO_MANY_DOCUMENTS: u8 = 35;

/// A header of a search has no body line after it.
pub const MISSING_BODY: u8 = 36;

/// The input has more bytes than `limits::MAX_INPUT`.
pub const INPUT_TOO_LONG: u8 = 37;

/// The input ends before its bulk section, or before the empty line that ends this section.
pub const MISSING_SECTION: u8 = 38;

/// The header of a search is no JSON object.
pub const BAD_HEADER: u8 = 39;
