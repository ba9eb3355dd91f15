//! How long and how deep a line of input may be.

/// The most bytes of a line that is read.
pub const MOST_LINE_BYTES: usize = 65_536;

/// The most levels of arrays and objects in the JSON of a request. The operations of all applications have fewer. An epoch's line
/// has three more, and JSON is read to 127.
pub const MOST_LEVELS: u8 = 16;
