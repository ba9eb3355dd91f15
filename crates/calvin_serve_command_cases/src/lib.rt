//! The command `calvin serve` as it is used, over journals in memory: lines in, what comes out, and how lines of words end that
//! are refused.
#![tactic(auto)]

#[cfg(test)]
mod checks;
#[cfg(test)]
mod compactions;
#[cfg(test)]
mod journals;
#[cfg(test)]
mod lines;
#[cfg(test)]
mod services;
