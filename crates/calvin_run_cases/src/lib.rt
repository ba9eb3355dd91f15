//! Worked cases of scripts that are run in a cluster, and of engines that are refused memory.
#![tactic(auto)]

#[cfg(test)]
mod gate;
mod giving_back;
#[cfg(test)]
mod refusals;
#[cfg(test)]
mod scarce;
#[cfg(test)]
mod scarce_check;
#[cfg(test)]
mod scarce_run;
#[cfg(test)]
mod scarce_scout;
#[cfg(test)]
mod scarce_serial;
#[cfg(test)]
mod scarce_sim;
#[cfg(test)]
mod scarce_wide;
#[cfg(test)]
mod scripts;
#[cfg(test)]
mod texts;
#[cfg(test)]
mod wide;
#[cfg(test)]
mod worked;

pub use giving_back::give_back;
