// The reader's limits and the numbers of the answers, named once. Sizes are in bytes.
#![tactic(auto)]

ghost use Rattle.std.specs.Prelude.{◌≡◌};
ghost use Rattle.limits.specs.Limits.{work_size};
ghost use Rattle.limits.specs.Refusal.{number};

#[derive(Drop)]
pub struct Limits {}

impl Limits {
    pub const DOCUMENT: usize = 1048576;

    pub const IRI: usize = 1024;

    pub const PREFIX: usize = 64;

    pub const PREFIXES: usize = 32;

    pub const DEPTH: usize = 64;
    // The least work slice: the prefixes with their namespaces, and the base.
    pub const WORK: usize = Self::PREFIXES * (Self::PREFIX + Self::IRI) + Self::IRI;

    // The same, as the definitions have it.
    pub fn work_size() -> usize
        ensures { result ≡ work_size }
    {
        Limits::WORK
    }
}

// Why a call is refused. The interface knows each by its number; 0 is no refusal.
#[derive(Clone, Copy, Debug, PartialEq, Eq)]
pub enum Refusal {
    DocumentLength = 1,
    Mode = 2,
    Base = 3,
    Work = 4,
    Utf8 = 5,
    Token = 6,
    Escape = 7,
    Grammar = 8,
    Prefix = 9,
    NoBase = 10,
    IriLength = 11,
    Prefixes = 12,
    Depth = 13,
    Rows = 14,
    Terms = 15,
    Store = 16,
    Output = 17,
    Tables = 18,
    IndexOutput = 22,
    Index = 23,
    Pairing = 25,
    List = 26,
}

impl From<Refusal> for u8 {
    ghost from_gives = { λ r n. n ≡ number r };

    fn from(refusal: Refusal) -> u8 {
        refusal as u8
    }
}
