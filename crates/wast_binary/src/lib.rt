//! The binary of the fields of a module that are resolved, covered and well formed (WebAssembly Core Specification 3.0, chapter 5).
//!
//! [`encode_fields`] goes from stop to stop: the sections in their order, and between them the custom sections at their places, the count of data
//! segments, branch hints and the section of names. It tells a binary of which a count or a length is past 4294967295 from want of memory.
//!
//! # What has to be believed
//!
//! Which module fields stand for is said by `Meaning` of `wast_meant`, and which bytes are its binary by `Lays` of `wasm_layout`. Of `specs/`,
//! `Can` says what is known of fields that can be encoded, and `Parts` and `Puts` what stands at each stop and what appending it leaves. The
//! others serve private contracts: `Views` and `Sources` say what contracts see of stops and of what is encoded, `Gives` in which sections a field
//! has something and `Noted` which are known to be absent, `DataCount` which instructions refer to data, and `Weight` how much there is in fields.
#![tactic(auto)]

mod data_count;
mod fields;
mod names_section;
mod present;
mod put;
mod room;
mod sections;
mod stop;
mod stops;

pub use fields::encode_fields;
