//! Tests of the lexer, of the parser, of name spaces, and of the calls on trees that no row shows: that each call which can want memory
//! can find it, that a refused growth is answered as want of memory and changes nothing, and what no clause says. What the calls answer
//! for texts stands in `wast_rows` and `wast_core_rows`.
#![tactic(auto)]

#[cfg(test)]
mod calls;
#[cfg(test)]
mod lexer;
#[cfg(test)]
mod memory;
#[cfg(test)]
mod namespace;
#[cfg(test)]
mod parser;
#[cfg(test)]
mod text;
#[cfg(test)]
mod trees;
