// The tokens between marks: IRIREF and the four kinds of string, with the escapes in them.
#![tactic(auto)]

pub mod escapes;
pub mod irirefs;
pub mod strings;
