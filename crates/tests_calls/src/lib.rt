//! The tests of public calls, of what neither a clause nor a run of the program tells: how far a
//! machine goes at once, and that calls which other programs make come to their end.
#![tactic(auto)]

#[cfg(test)]
mod items;
#[cfg(test)]
mod lines;
#[cfg(test)]
mod pairs;
#[cfg(test)]
mod sessions;
#[cfg(test)]
mod steps;
