// The mode in which a file is read.
ghost use Rattle.std.specs.Prelude.{◌≡◌};
ghost use Rattle.documents.specs.Choice.{mode_by_name, mode_by_word};
ghost use Rattle.documents.specs.Code.{mode_number, word_number, chosen};

#[derive(Clone, Copy, Debug, PartialEq, Eq)]
pub enum Mode {
    Trig,
    Turtle,
}

// The reader takes a mode by its number.
impl From<Mode> for u8 {
    ghost from_gives = { λ mode n. n ≡ mode_number mode };

    fn from(mode: Mode) -> u8 {
        mode as u8
    }
}

// How files are read: in one mode, or each by the ending of its name.
#[derive(Clone, Copy, Debug, PartialEq, Eq)]
pub enum Choice {
    Always(Mode),
    ByName,
}

impl Choice {
    // The mode of the file with this name.
    pub fn mode(self, name: &[u8]) -> Mode
        ensures { mode_number result ≡ chosen self name.now }
    {
        match self {
            Choice::Always(mode) => mode,
            Choice::ByName => mode_by_name(name),
        }
    }
}

// Turtle by the ending .ttl, else TriG.

pub fn mode_by_name(name: &[u8]) -> Mode
    ensures { mode_number result ≡ mode_by_name name.now }
{
    if name.ends_with(b".ttl") {
        return Mode::Turtle;
    }
    Mode::Trig
}

// The choice that a word among the arguments makes, if it is such a word.
#[tactic(auto, unfolding(crate::specs::Choice::mode_by_word))]
pub fn mode_by_word(word: &[u8]) -> Option<Choice>
    ensures { word_number result ≡ mode_by_word word.now }
{
    if text::same(word, b"trig") {
        return Some(Choice::Always(Mode::Trig));
    }
    if text::same(word, b"turtle") {
        return Some(Choice::Always(Mode::Turtle));
    }
    if text::same(word, b"auto") {
        return Some(Choice::ByName);
    }
    None
}
