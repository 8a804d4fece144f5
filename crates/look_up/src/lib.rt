// The look-up of a subject in an index, which reads the index's bytes and needs no other memory; how the head of a record is laid out.
#![tactic(auto)]

ghost use Rattle.std.specs.Prelude.{◌≡◌, true, ◌+◌, ◌≤◌, ◌<◌, length};
ghost use Rattle.limits.specs.Limits.{iri_limit};
ghost use Rattle.text.specs.Words.{four_at};
ghost use Rattle.look_up.specs.Record.{size_of, text_of, is_record, entry_of};
ghost use Rattle.look_up.specs.Look.{rises, stops, look};
ghost use Rattle.look_up.specs.Code.{prior};

use limits::{Limits, Refusal};

// What stands before the text of a record: so many bytes, of which the first two are its mark, and the places of its numbers.
#[derive(Drop)]
pub struct Head {}

impl Head {
    pub const SIZE: usize = 12;

    pub const FIRST_MARK: u8 = 0x47;

    pub const SECOND_MARK: u8 = 0x58;

    pub const LENGTH: usize = 2;

    pub const COUNT: usize = 4;

    pub const FIRST: usize = 8;
}

// The rows of a subject: how many, and the number of the first, from 0.
#[derive(Clone, Copy)]
pub struct Rows {
    pub count: u32,
    pub first: u32,
}

// The length of the text of the record at the front.
#[tactic(auto, unfolding(crate::specs::Record::size_of))]
fn size_of(front: &[u8]) -> usize
    requires { 4 ≤ length front.now }
    ensures { (result ≡ size_of front.now) × (result < 65536) }
{
    usize::from(front[Head::LENGTH]) + 256 * usize::from(front[Head::LENGTH + 1])
}

// Whether a record stands at the front.
fn is_record(front: &[u8]) -> bool
    ensures { result ≡ is_record iri_limit front.now }
{
    if front.len() < Head::SIZE {
        return false;
    }
    if front[0] != Head::FIRST_MARK {
        return false;
    }
    if front[1] != Head::SECOND_MARK {
        return false;
    }
    let size = size_of(front);
    if Limits::IRI < size {
        return false;
    }
    Head::SIZE + size <= front.len()
}

// The text of the record at the front.
fn text_of(front: &[u8]) -> &[u8]
    requires { is_record iri_limit front.now ≡ true }
    ensures { result.now ≡ text_of front.now }
{
    let end = Head::SIZE + size_of(front);
    &front[Head::SIZE..end]
}

// Whether a text rises above the one before it, where there is one.
fn has_risen(before: Option<&[u8]>, text: &[u8]) -> bool
    ensures { result ≡ rises (prior before.entry) text.now }
{
    match before {
        Some(before) => text::smaller(before, text),
        None => true,
    }
}

// Four bytes as a number.
fn number_at(front: &[u8], at: usize) -> u32
    requires { at + 4 ≤ length front.now }
    ensures { result ≡ four_at front.now at }
{
    text::four(front, at) as u32
}

// The rows at the record where the look-up stops.
fn stop(address: &[u8], front: &[u8]) -> Rows
    requires { is_record iri_limit front.now ≡ true }
    ensures { result ≡ stops address.now (entry_of front.now) }
{
    if !text::same(text_of(front), address) {
        return Rows { count: 0, first: 0 };
    }
    Rows {
        count: number_at(front, Head::COUNT),
        first: number_at(front, Head::FIRST),
    }
}

// The rows of the subject with this address; none where it is absent. Any bytes may be given.
pub fn look_up(address: &[u8], index: &[u8]) -> Result<Rows, Refusal>
    ensures { result ≡ look iri_limit address.now index.now }
{
    let mut before: Option<&[u8]> = None;
    let mut rest = index;
    while !rest.is_empty() {
        if !is_record(rest) {
            return Err(Refusal::Index);
        }
        let text = text_of(rest);
        if !has_risen(before, text) {
            return Err(Refusal::Index);
        }
        if !text::smaller(text, address) {
            return Ok(stop(address, rest));
        }
        before = Some(text);
        rest = &rest[Head::SIZE + text.len()..];
    }
    Ok(Rows { count: 0, first: 0 })
}
