//! Worked journals that are opened again, with rows that they begin with and without: where they leave the store, and what their
//! epochs were answered; and tests of what no clause says of a journal that is refused, or whose log or sink fails.
#![tactic(auto)]

#[cfg(test)]
mod checks;
#[cfg(test)]
mod failures;
#[cfg(test)]
mod journals;
#[cfg(test)]
mod opened;
#[cfg(test)]
mod printed;
#[cfg(test)]
mod rows;
#[cfg(test)]
mod stock;
