//! Worked cases of rows as lines of a journal: rows of each application with the lines that keep them, and lines that keep none;
//! and of the line that tells that rows stand behind it.
#![tactic(auto)]

#[cfg(test)]
mod checks;
#[cfg(test)]
mod lines;
#[cfg(test)]
mod refusals;
#[cfg(test)]
mod starts;
