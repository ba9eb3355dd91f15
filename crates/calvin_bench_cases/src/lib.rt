//! The worked cases of what one replica does with a given order, checked over the statements of the crates below.
#![tactic(auto)]

#[cfg(test)]
mod checks;
#[cfg(test)]
mod drawing;
#[cfg(test)]
mod drawn;
#[cfg(test)]
mod plain;
#[cfg(test)]
mod plain_kv;
#[cfg(test)]
mod scarce_replica;
#[cfg(test)]
mod shown;
#[cfg(test)]
mod sizes;
#[cfg(test)]
mod two_partitions;
