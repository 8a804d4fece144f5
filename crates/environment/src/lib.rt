// The prefixes and the base in force. Their texts stand in the lent work slice, their lengths in a small array.
#![tactic(auto)]

ghost use Rattle.std.specs.Prelude.{IfSome, ◌≡◌, ◌+◌, ◌≤◌, ◌<◌, length, replicate};
ghost use Rattle.limits.specs.Limits.{prefixes_limit, work_size};
ghost use Rattle.environment.specs.Code.{words_size, binding, count, listed, environment_in, Usable, PlacedAt, FoundIn, WroteBinding, Declares, SetsBase};

use limits::Limits;

// Where things stand: in the work slice a cell for each prefix and its namespace, and one for the base; in the array the
// lengths of the prefixes, those of their namespaces, how many prefixes there are, the base's length; from OWN on its words
// are the caller's.
#[derive(Drop)]
pub struct Layout {}

impl Layout {
    pub const CELL: usize = Limits::PREFIX + Limits::IRI;

    pub const BASE: usize = Limits::PREFIXES * Self::CELL;

    pub const COUNT: usize = Limits::PREFIXES * 2;

    pub const BASE_LENGTH: usize = Self::COUNT + 1;

    pub const OWN: usize = Self::COUNT + 2;

    pub const OWN_WORDS: usize = 178;

    pub const WORDS: usize = Self::OWN + Self::OWN_WORDS;

    // Nothing is declared, and there is no base.
    pub fn fresh() -> [usize; Layout::WORDS]
        ensures { result ≡ replicate words_size 0 }
    {
        [0usize; Layout::WORDS]
    }
}

// Why a prefix is not declared: it or its namespace is too long; it would be one prefix too many.
#[derive(Clone, Copy, Debug, PartialEq, Eq)]
pub enum DeclareError {
    TooLong,
    TooMany,
}

// Why a base is not set.
#[derive(Clone, Copy, Debug, PartialEq, Eq)]
pub struct BaseTooLong;

// How many prefixes are declared.
pub fn prefix_count(lens: &[usize; Layout::WORDS]) -> usize
    ensures { (result ≡ count lens.now) × (result ≤ prefixes_limit) }
{
    lens[Layout::COUNT].min(Limits::PREFIXES)
}

// The place of a declared prefix among the bindings.
fn find(work: &[u8], lens: &[usize; Layout::WORDS], prefix: &[u8]) -> Option<usize>
    requires { work_size ≤ length work.now }
    ensures place { PlacedAt prefix.now (listed (binding work.now lens.now) 0 (count lens.now)) result }
    ensures within { IfSome result (λ i. i < count lens.now) }
{
    for i in 0..prefix_count(lens) {
        let start = i * Layout::CELL;
        let end = start + lens[i].min(Limits::PREFIX);
        if text::same(prefix, &work[start..end]) {
            return Some(i);
        }
    }
    None
}

// Where the namespace of a prefix stands: from which place of the work slice on, and how many bytes.
pub fn look_up(work: &[u8], lens: &[usize; Layout::WORDS], prefix: &[u8]) -> Option<(usize, usize)>
    ensures { (work_size ≤ length work.now) → FoundIn prefix.now (environment_in work.now lens.now) work.now result }
{
    if work.len() < Limits::WORK {
        return None;
    }
    let i = find(work, lens, prefix)?;
    let start = i * Layout::CELL + Limits::PREFIX;
    Some((start, lens[Limits::PREFIXES + i].min(Limits::IRI)))
}

// Writes a prefix and its namespace into the i-th cell, and their lengths into the array.
fn write_binding(
    work: &mut [u8],
    lens: &mut [usize; Layout::WORDS],
    i: usize,
    prefix: &[u8],
    namespace: &[u8],
)
    requires { (work_size ≤ length work.old) × (i < prefixes_limit) }
    ensures { WroteBinding work.old work.new lens.old lens.new i prefix.now namespace.now }
{
    let first = i * Layout::CELL;
    text::copy(prefix, &mut work[first..]);
    let second = first + Limits::PREFIX;
    text::copy(namespace, &mut work[second..]);
    lens[i] = prefix.len();
    lens[Limits::PREFIXES + i] = namespace.len();
}

// Declares a prefix, for the first time or again.
pub fn declare(
    work: &mut [u8],
    lens: &mut [usize; Layout::WORDS],
    prefix: &[u8],
    namespace: &[u8],
) -> Result<(), DeclareError>
    ensures { Usable work.old lens.old → Declares work.old work.new lens.old lens.new prefix.now namespace.now result }
{
    if work.len() < Limits::WORK {
        return Err(DeclareError::TooLong);
    }
    if Limits::PREFIX < prefix.len() {
        return Err(DeclareError::TooLong);
    }
    if Limits::IRI < namespace.len() {
        return Err(DeclareError::TooLong);
    }
    if let Some(i) = find(work, lens, prefix) {
        write_binding(work, lens, i, prefix, namespace);
        return Ok(());
    }
    let n = prefix_count(lens);
    if Limits::PREFIXES <= n {
        return Err(DeclareError::TooMany);
    }
    write_binding(work, lens, n, prefix, namespace);
    lens[Layout::COUNT] = n + 1;
    Ok(())
}

// Sets the base.
pub fn set_base(
    work: &mut [u8],
    lens: &mut [usize; Layout::WORDS],
    iri: &[u8],
) -> Result<(), BaseTooLong>
    ensures { Usable work.old lens.old → SetsBase work.old work.new lens.old lens.new iri.now result }
{
    if work.len() < Limits::WORK {
        return Err(BaseTooLong);
    }
    if Limits::IRI < iri.len() {
        return Err(BaseTooLong);
    }
    text::copy(iri, &mut work[Layout::BASE..]);
    lens[Layout::BASE_LENGTH] = iri.len();
    Ok(())
}

// The base in force; empty where there is none.
pub fn base<'a>(work: &'a [u8], lens: &[usize; Layout::WORDS]) -> &'a [u8]
    ensures { Usable work.now lens.now → result.now ≡ (environment_in work.now lens.now).base }
{
    if work.len() < Limits::WORK {
        return &work[0..0];
    }
    let end = Layout::BASE + lens[Layout::BASE_LENGTH].min(Limits::IRI);
    &work[Layout::BASE..end]
}
