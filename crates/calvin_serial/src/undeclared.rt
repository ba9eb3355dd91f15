//! The sets of requests that declare none.

/// Which sets a request has that declares none.
#[derive(Clone, Copy, Debug, PartialEq, Eq)]
pub enum UndeclaredSets {
    /// Those that it needs where no row is known.
    First,
    /// Those that are found over the rows as they stand before its epoch (Thomson et al. 2012, section 3.2.1: a
    /// reconnaissance query finds them before the request is issued).
    Scouted,
}
