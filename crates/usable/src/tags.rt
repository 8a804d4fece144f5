// Language tags.
ghost use Rattle.std.specs.Prelude.{◌≡◌};
ghost use Rattle.usable.specs.Places.{next_place, ends, walks};
ghost use Rattle.table.specs.Usable.{is_tag};

use characters::bytes::{is_letter, is_letter_or_digit};

// A place in a LANGTAG behind its @, by what was read: nothing, letters, a dash, some of a subtag; or it is none.
#[derive(Clone, Copy)]
pub enum Place {
    Start,
    Letters,
    Dash,
    Subtag,
    Off,
}

// [a-zA-Z]+ ('-' [a-zA-Z0-9]+)*: the place after one more byte.
#[tactic(auto, unfolding(crate::specs::Places::next_place, crate::specs::Places::dashed))]
fn next(place: Place, c: u8) -> Place
    ensures { result ≡ next_place place c }
{
    match place {
        Place::Start | Place::Letters if is_letter(c) => Place::Letters,
        Place::Dash | Place::Subtag if is_letter_or_digit(c) => Place::Subtag,
        Place::Letters | Place::Subtag if c == b'-' => Place::Dash,
        _ => Place::Off,
    }
}

#[tactic(auto, unfolding(crate::specs::Places::ends))]
fn is_end(place: Place) -> bool
    ensures { result ≡ ends place }
{
    matches!(place, Place::Letters | Place::Subtag)
}

// Whether the text has the form of a LANGTAG without its @.
fn has_tag_form(s: &[u8]) -> bool
    ensures { result ≡ walks Place.Start s.now }
{
    is_end(s.iter().fold(Place::Start, |place, c| next(place, *c)))
}

// "a tag is not LANGTAG without its @ or is exactly base or prefix"
#[tactic(auto, using(crate::proofs::TagForms::tag_walks))]
pub fn is_tag(s: &[u8]) -> bool
    ensures { result ≡ is_tag s.now }
{
    !text::same(s, b"prefix") && !text::same(s, b"base") && has_tag_form(s)
}
