//! Tests of scripts that are read from tokens, by public calls alone: which scripts are read in the usual way, and that
//! both ways read the same. No clause says that the usual way is taken at all, so it is counted here.
#![tactic(auto)]

#[cfg(test)]
mod applications;
#[cfg(test)]
mod checks;
#[cfg(test)]
mod forms;
#[cfg(test)]
mod same;
#[cfg(test)]
mod scripts;
#[cfg(test)]
mod stock_forms;
