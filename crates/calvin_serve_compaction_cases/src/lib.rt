//! Worked compactions: the journal that begins with the rows of a desk, byte for byte, what the desk does over it, and what is left
//! where a log fails.
#![tactic(auto)]

#[cfg(test)]
mod checks;
#[cfg(test)]
mod compacted;
#[cfg(test)]
mod desks;
