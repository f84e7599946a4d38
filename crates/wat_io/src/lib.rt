//! Readers and writers that count their failed calls, reading up to a bound, and writing as far as a writer goes. A part of
//! the crate `wat`, which passes [`Counted`] on and nothing else.
//!
//! [`read_within`] with the bound 16 takes exactly 16 bytes of a reader that never ends, which is a test of `wat_tests`. The
//! crate has no laws beside its contracts.
#![tactic(auto)]

mod counted;
mod reading;
mod writing;

pub use counted::Counted;
pub use reading::{ReadFault, read_within};
pub use writing::{write_front, write_whole};
