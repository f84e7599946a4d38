//! Tests of the calls of `wat` and of its parts: that they find memory where there is some, growths that are refused, and readers and
//! writers that fail. Texts and their binaries are rows, in `wat_rows`.
#![tactic(auto)]

#[cfg(test)]
mod failing;
#[cfg(test)]
mod memory;
#[cfg(test)]
mod runs;
#[cfg(test)]
mod trees;
