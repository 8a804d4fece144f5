// Which tokens would have been allowed where the grammar refused one.
#![tactic(auto)]

mod trial;

pub use trial::is_allowed;
