// Escapes: numeric and string escapes in references and strings, reserved character escapes in local names.
#![tactic(auto)]

ghost use Rattle.std.specs.Prelude.{◌≡◌, false, ◌+◌, ◌≤◌, ◌<◌, length, drop, slice_index};
ghost use Rattle.std.specs.Iterator.{at_most};
ghost use Rattle.text.specs.Text.{is, same_text, begins, some_byte};
ghost use Rattle.text.specs.Slice.{over, over_at};
ghost use Rattle.utf8.specs.Utf8.{width};
ghost use Rattle.escape.specs.Escape.{hex_value, letter_value, no_character, bad_escape, unescape, unreserve};
ghost use Rattle.escape.specs.declared.Escapes.TheVariants.{Quoted, Local};
ghost use Rattle.escape.specs.Code.{undone, number, most, four, size, bad, low, Numbered, Walks, Written};

use text::wide;

// How a text is escaped: as strings and IRIREFs are, or as local names are.
#[derive(Clone, Copy, Debug, PartialEq, Eq)]
pub enum Escapes {
    Quoted,
    Local,
}

// What an escape stands for: a character, or the byte behind a backslash, and how many bytes it has.
#[derive(Clone, Copy, Debug, PartialEq, Eq)]
pub struct Character {
    pub value: usize,
    pub width: usize,
}

// A part of an escaped text: bytes that stand for themselves, or an escape.
#[derive(Clone, Copy)]
pub enum Stretch<'a> {
    Run(&'a [u8]),
    One(Character),
}

// The parts of an escaped text, from the front of the rest on.
#[derive(Clone, Copy)]
pub struct Stretches<'a> {
    pub escapes: Escapes,
    pub rest: &'a [u8],
}

fn hex_value(c: u8) -> usize
    ensures { (result ≡ hex_value c) × (result ≤ 168) }
{
    let zero = match c {
        ..=b'9' => b'0',
        ..=b'F' => b'A' - 10,
        _ => b'a' - 10,
    };
    wide(c.saturating_sub(zero))
}

// The character that a letter behind a backslash stands for.
fn letter_value(c: u8) -> u8
    ensures { result ≡ letter_value c }
{
    match c {
        b't' => 9,
        b'b' => 8,
        b'n' => 10,
        b'r' => 13,
        b'f' => 12,
        _ => c,
    }
}

// How many bytes the number has in UTF-8, also where it is no `char`.
fn width_of(v: usize) -> usize
    ensures { (result ≡ width v) × (result ≤ 4) }
{
    match v {
        ..0x80 => 1,
        ..0x800 => 2,
        ..0x10000 => 3,
        _ => 4,
    }
}

fn names_no_character(v: usize) -> bool
    ensures { result ≡ no_character v }
{
    match v {
        0xD800..=0xDFFF => true,
        _ => 0x10FFFF < v,
    }
}

// The number that hex digits make.
fn number(digits: &[u8]) -> usize
    requires { length digits.now ≤ 8 }
    ensures { result ≡ number 0 digits.now }
{
    let mut value: usize = 0;
    for c in digits {
        value = value * 16 + hex_value(*c);
    }
    value
}

impl Character {
    // The first `width` are its bytes. (They are bytes unless it is no character.)
    pub fn bytes(self) -> [usize; 4]
        ensures { result ≡ four self }
    {
        let v = self.value;
        let n = self.width;
        if n < 2 {
            return [v, 0, 0, 0];
        }
        let last = 0x80 + v % 64;
        if n == 2 {
            return [0xC0 + v / 64, last, 0, 0];
        }
        let third = 0x80 + v / 64 % 64;
        if n == 3 {
            return [0xE0 + v / 4096, third, last, 0];
        }
        [0xF0 + v / 262144, 0x80 + v / 4096 % 64, third, last]
    }

    // Whether a numeric escape names no character.
    fn is_bad(self) -> bool
        ensures { result ≡ bad self }
    {
        2 < self.width && names_no_character(self.value)
    }
}

impl<'a> Stretch<'a> {
    // How many bytes it stands for.
    fn len(self) -> usize
        ensures { result ≡ size self.entry }
    {
        match self {
            Stretch::Run(run) => run.len(),
            Stretch::One(c) => c.width,
        }
    }
}

impl<'a> Stretches<'a> {
    // The character of so many hex digits from a place on; nothing where the text ends before. It stands by itself so that the rest of
    // `next` is taken into the loops.
    #[inline(never)]
    fn numeric(&mut self, at: usize, digits: usize) -> Option<Stretch<'a>>
        requires { (at ≤ length self.old.rest.now) × (digits ≤ 8) }
        ensures { Numbered self.old self.new at digits result }
    {
        let s = self.rest;
        if s.len() - at < digits {
            return None;
        }
        let end = at + digits;
        let value = number(&s[at..end]);
        self.rest = &s[end..];
        Some(Stretch::One(Character {
            value,
            width: width_of(value),
        }))
    }

    // The bytes behind a backslash of a local name, up to the next.
    fn reserved(&mut self) -> Option<Stretch<'a>>
        requires { (0 < length self.old.rest.now) × (slice_index self.old.rest.now 0 ≡ 92) }
        ensures { self.old.escapes ≡ Local → Walks self.old self.new result }
    {
        let s = self.rest;
        let to = text::next(s, 1, b'\\');
        self.rest = &s[to..];
        Some(Stretch::Run(&s[1..to]))
    }

    // A backslash, and what stands behind it in a string or an IRIREF.
    #[inline(always)]
    fn escaped(&mut self) -> Option<Stretch<'a>>
        requires { (0 < length self.old.rest.now) × (slice_index self.old.rest.now 0 ≡ 92) }
        ensures { self.old.escapes ≡ Quoted → Walks self.old self.new result }
    {
        let s = self.rest;
        if s.len() < 2 {
            return None;
        }
        match s[1] {
            b'u' => self.numeric(2, 4),
            b'U' => self.numeric(2, 8),
            c => {
                self.rest = &s[2..];
                Some(Stretch::One(Character {
                    value: wide(letter_value(c)),
                    width: 1,
                }))
            }
        }
    }
}

impl<'a> Iterator for Stretches<'a> {
    type Item = Stretch<'a>;

    ghost next_gives = { λ s r t. Walks s t r };

    ghost remaining = { λ s. at_most (length s.rest.now) };

    #[inline(always)]
    fn next(&mut self) -> Option<Stretch<'a>> {
        let s = self.rest;
        if s.is_empty() {
            return None;
        }
        // It stands for itself; without this test an escape costs a call that finds nothing, 25 instructions.
        if s[0] != b'\\' {
            let run = text::next(s, 1, b'\\');
            self.rest = &s[run..];
            return Some(Stretch::Run(&s[..run]));
        }
        match self.escapes {
            Escapes::Local => self.reserved(),
            Escapes::Quoted => self.escaped(),
        }
    }
}

// Whether t goes on with these numbers from j on.
fn goes_on(t: &[u8], j: usize, b: &[usize]) -> bool
    requires { j ≤ length t.now }
    ensures { result ≡ begins b.now (drop j t.now) }
{
    if t.len() - j < b.len() {
        return false;
    }
    for (i, n) in b.iter().enumerate() {
        if wide(t[j + i]) != *n {
            return false;
        }
    }
    true
}

// Writes these numbers as bytes from j on, as far as out goes.
fn put(out: &mut [u8], j: usize, b: &[usize])
    requires { j + length b.now < 18446744073709551616 }
    ensures { out.new ≡ over_at j (low b.now) out.old }
{
    for (i, n) in b.iter().enumerate() {
        if out.len() <= j + i {
            return;
        }
        out[j + i] = (*n % 256) as u8;
    }
}

// Whether a backslash stands in the text; without one it stands for itself.
pub fn has_backslash(s: &[u8]) -> bool
    ensures { result ≡ some_byte (is "\\") s.now }
{
    text::has(s, 92)
}

// Writes the bytes from j on, as far as out goes.
fn put_plain(out: &mut [u8], j: usize, s: &[u8])
    ensures { out.new ≡ over_at j (low s.now) out.old }
{
    if out.len() <= j {
        return;
    }
    text::copy(s, &mut out[j..]);
}

// How long the text is with its escapes undone.
pub fn undone_length(escapes: Escapes, s: &[u8]) -> usize
    ensures { result ≡ length (undone escapes s.now) }
{
    if !has_backslash(s) {
        return s.len();
    }
    let mut total: usize = 0;
    for part in (Stretches { escapes, rest: s }) {
        total += part.len();
    }
    total
}

// Whether t is the text with its escapes undone.
pub fn same_undone(escapes: Escapes, s: &[u8], t: &[u8]) -> bool
    ensures { result ≡ same_text (undone escapes s.now) t.now }
{
    if !has_backslash(s) {
        return text::same(s, t);
    }
    let mut j: usize = 0;
    for part in (Stretches { escapes, rest: s }) {
        match part {
            Stretch::Run(run) => {
                if !text::begins(run, &t[j..]) {
                    return false;
                }
                j += run.len();
            }
            Stretch::One(c) => {
                if !goes_on(t, j, &c.bytes()[..c.width]) {
                    return false;
                }
                j += c.width;
            }
        }
    }
    j == t.len()
}

// Writes the text with its escapes undone over the front of out, as far as out goes; its length.
pub fn write_undone(escapes: Escapes, s: &[u8], out: &mut [u8]) -> usize
    ensures { Written (escapes ≡ Quoted → bad_escape s.now ≡ false) (undone escapes s.now) out.old out.new result }
{
    if !has_backslash(s) {
        text::copy(s, out);
        return s.len();
    }
    let mut j: usize = 0;
    for part in (Stretches { escapes, rest: s }) {
        match part {
            Stretch::Run(run) => {
                put_plain(out, j, run);
                j += run.len();
            }
            Stretch::One(c) => {
                put(out, j, &c.bytes()[..c.width]);
                j += c.width;
            }
        }
    }
    j
}

// Whether a numeric escape of the text names no character.
pub fn has_bad_escape(s: &[u8]) -> bool
    ensures { result ≡ bad_escape s.now }
{
    if !has_backslash(s) {
        return false;
    }
    for part in (Stretches {
        escapes: Escapes::Quoted,
        rest: s,
    }) {
        if let Stretch::One(c) = part {
            if c.is_bad() {
                return true;
            }
        }
    }
    false
}
