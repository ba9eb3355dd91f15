//! How large amounts may be.

/// The most cents of a balance, of the price of a piece, and of an order's total.
pub const MOST_CENTS: u64 = 1_000_000_000_000_000;

/// The most pieces of an item in stock, and of a line of an order.
pub const MOST_PIECES: u64 = 1_000_000_000;

/// The most lines of an order.
pub const MOST_LINES: usize = 4;
