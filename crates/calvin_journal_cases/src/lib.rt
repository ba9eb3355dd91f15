//! Worked cases of journals, and tests of what no clause says of logs and journals: what is left after a refusal at each
//! call, torn at each byte; and a journal in a file, which is written anew and replaced.
#![tactic(auto)]

#[cfg(test)]
mod anew;
#[cfg(test)]
mod beginnings;
#[cfg(test)]
mod checks;
#[cfg(test)]
mod crashes;
#[cfg(test)]
mod files;
#[cfg(test)]
mod journals;
#[cfg(test)]
mod peeks;
#[cfg(test)]
mod texts;
