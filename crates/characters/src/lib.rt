// Tests of bytes and of the code points of names, and runs of them.
#![tactic(auto)]

pub mod bytes;
pub mod classes;
pub mod names;
pub mod runs;
