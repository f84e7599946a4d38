//! Tests of the calls of the encoder's crates, in a crate of their own: a crate with tests is proved twice.
//!
//! That each call finds memory where there is some, copies too, is shown by the rows of `wasm_encoder_rows` and of
//! `wasm_encoder_section_rows`, which reach them all but the copies of an instruction and of what owns no memory. The tests
//! `refused_growths` have each growth refused in turn (`bin/refuse`): the answer is then want of memory and nothing else is changed, and the test fails by its result.
#![tactic(auto)]

#[cfg(test)]
mod bodies;
#[cfg(test)]
mod custom;
#[cfg(test)]
mod encode;
#[cfg(test)]
mod entities;
#[cfg(test)]
mod items;
#[cfg(test)]
mod modules;
#[cfg(test)]
mod names;
