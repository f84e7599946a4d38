//! Laws over what `wast_meaning` says of names and types (WebAssembly Core Specification 3.0, 6.1.3 and 6.6, type uses), and no code: what stays
//! where fields are written out, where uses get their types, where indices get their numbers, and where names and places are others; and that what is
//! walked in one order may be walked in another.
//!
//! # What has to be believed
//!
//! | File of `specs/` | Says |
//! |---|---|
//! | `Laws` | the statements of the law functions |
//! | `Numbers` | fields whose indices are numbers |
//! | `Renamed` | fields and demands with other names and other places |
//! | `Walks` | the walks of `wast_meaning` in other orders |
//!
//! The rest is in `wast_meaning`: `Written` says what fields are written out as, `Numbered` which types uses take and which numbers
//! indices become, `Demands` what is demanded of names. The lemmas behind the laws, in `proofs/`, hold over any names with a test that
//! tells equal ones, and any places. Of these, laws of whole texts may use:
//!
//! | File of `proofs/` | Says |
//! |---|---|
//! | `Renamed` | the free theorem: whatever is made for any names with a test and any places, from tokens, trees or demands, goes along with a renaming that is one to one; a map over names and places that leaves all as it is where these stay is the renaming |
//! | `Walks` | elements of several kinds, walked together or kind by kind; what is known from the elements before, looked up or handed on; demands tested on the way |
#![tactic(auto)]

pub mod laws;
