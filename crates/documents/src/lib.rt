// Documents as people speak of them: the line and the column of a place, and the mode by a file's name or by a word.
#![tactic(auto)]

mod choice;
mod places;

pub use choice::{Choice, Mode, mode_by_name, mode_by_word};
pub use places::{Place, line_end, place_of};
