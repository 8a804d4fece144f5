// The sets of bytes by which a routine is made.
ghost use Rattle.std.specs.Prelude.{◌≡◌, List};
ghost use Rattle.utf8.specs.Utf8.{Range};
ghost use Rattle.token.specs.Regular.{in_ranges};
ghost use Rattle.characters.specs.Bytes.{digit, letter, letter_or_digit, name, local, local_first, label_first};

use crate::bytes::{
    is_digit, is_label_first, is_letter, is_letter_or_digit, is_local, is_local_first, is_name,
};

pub trait Class {
    ghost set: { List Range };

    fn has(b: u8) -> bool
        ensures { result ≡ in_ranges b set };
}

#[derive(Drop)]
pub struct Digit {}

impl Class for Digit {
    ghost set = { digit };

    fn has(b: u8) -> bool {
        is_digit(b)
    }
}

#[derive(Drop)]
pub struct Letter {}

impl Class for Letter {
    ghost set = { letter };

    fn has(b: u8) -> bool {
        is_letter(b)
    }
}

#[derive(Drop)]
pub struct LetterOrDigit {}

impl Class for LetterOrDigit {
    ghost set = { letter_or_digit };

    fn has(b: u8) -> bool {
        is_letter_or_digit(b)
    }
}

#[derive(Drop)]
pub struct Name {}

impl Class for Name {
    ghost set = { name };

    fn has(b: u8) -> bool {
        is_name(b)
    }
}

#[derive(Drop)]
pub struct Local {}

impl Class for Local {
    ghost set = { local };

    fn has(b: u8) -> bool {
        is_local(b)
    }
}

#[derive(Drop)]
pub struct LocalFirst {}

impl Class for LocalFirst {
    ghost set = { local_first };

    fn has(b: u8) -> bool {
        is_local_first(b)
    }
}

#[derive(Drop)]
pub struct LabelFirst {}

impl Class for LabelFirst {
    ghost set = { label_first };

    fn has(b: u8) -> bool {
        is_label_first(b)
    }
}
