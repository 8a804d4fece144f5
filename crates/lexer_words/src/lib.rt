// The tokens without marks around them: numbers, language tags, blank node labels, prefixed names and keywords.
#![tactic(auto)]

pub mod labels;
pub mod locals;
pub mod names;
pub mod numbers;
pub mod tags;
pub mod words;
