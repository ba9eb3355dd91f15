//! How large things may be.

/// The most keys of a set, and of a request's writes.
pub const MOST_KEYS: usize = 16;

/// The most requests of a batch.
pub const MOST_REQUESTS: usize = 256;

/// The most partitions of a replica.
pub const MOST_PARTITIONS: u8 = 16;

/// The most replicas.
pub const MOST_REPLICAS: u8 = 7;

/// The most closings for which a request that may touch cold rows is held back.
pub const MOST_DELAY: u8 = 16;

/// The most attempts at a request that an issuer makes.
pub const MOST_ATTEMPTS: u8 = 8;

/// The most requests that a sequencer has undecided: queued, held back, or closed in a batch that isn't decided.
pub const MOST_UNDECIDED: usize = 4096;

/// How many epochs there are, numbered from 0: no batch is closed for a later one.
pub const MOST_EPOCHS: u64 = 1 << 48;

/// The rounds of ballots are below this number.
pub const MOST_ROUNDS: u64 = 1 << 32;
