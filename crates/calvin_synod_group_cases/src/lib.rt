//! The worked cases of a group's synod, and drawn events of a group beside a plain evaluation of them, checked over the
//! statements of the crates below.
#![tactic(auto)]

#[cfg(test)]
mod checks;
#[cfg(test)]
mod drawn;
#[cfg(test)]
mod group;
#[cfg(test)]
mod plain;
#[cfg(test)]
mod scarce_roles;
#[cfg(test)]
mod synod;
