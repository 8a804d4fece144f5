// The code points of names.
ghost use Rattle.std.specs.Prelude.{◌≡◌, [], ◌≤◌, ◌<◌, length, get_or};
ghost use Rattle.automaton.specs.Levels.{level};
ghost use Rattle.characters.specs.Names.{CharAt};

use crate::classes::Class;

// PN_CHARS_BASE, and the rest of PN_CHARS.
pub const BASE: u8 = 2;

pub const INNER: u8 = 1;

// The level of a code point from U+00C0 to U+036F.
fn low_level(c: u32) -> u8
    requires { (0xC0 ≤ c) × (c < 0x370) }
    ensures { result ≡ level c }
{
    match c {
        0xC0..=0xD6 | 0xD8..=0xF6 | 0xF8..=0x2FF => BASE,
        0x300..=0x36F => INNER,
        _ => 0,
    }
}

// The level of a code point from U+2000 to U+3000.
fn middle_level(c: u32) -> u8
    requires { (0x2000 ≤ c) × (c < 0x3001) }
    ensures { result ≡ level c }
{
    match c {
        0x200C..=0x200D | 0x2070..=0x218F | 0x2C00..=0x2FEF => BASE,
        0x203F..=0x2040 => INNER,
        _ => 0,
    }
}

// The level of a code point from the surrogates on.
fn high_level(c: u32) -> u8
    requires { (0xD800 ≤ c) × (c < 0x110000) }
    ensures { result ≡ level c }
{
    match c {
        0xF900..=0xFDCF | 0xFDF0..=0xFFFD | 0x10000..=0xEFFFF => BASE,
        _ => 0,
    }
}

// 2 for PN_CHARS_BASE, 1 for the rest of PN_CHARS, 0 for what names do not have.
fn name_level(c: u32) -> u8
    requires { (128 ≤ c) × (c < 0x110000) }
    ensures { result ≡ level c }
{
    if c < 0xC0 {
        if c == 0xB7 {
            return INNER;
        }
        return 0;
    }
    if c < 0x370 {
        return low_level(c);
    }
    if c < 0x2000 {
        if c == 0x37E {
            return 0;
        }
        return BASE;
    }
    if c < 0x3001 {
        return middle_level(c);
    }
    if c < 0xD800 {
        return BASE;
    }
    high_level(c)
}

// The length of the code point from 128 on there, if it is at least of this level.
fn wide_char(s: &[u8], at: usize, least: u8) -> Option<usize>
    requires { (at < length s.now) × (128 ≤ get_or s.now at 0) × (1 ≤ least) }
    ensures { CharAt [] least s.now at result }
{
    let c = utf8::read_code_point(&s[at..])?;
    if name_level(c.value) < least {
        return None;
    }
    Some(c.size)
}

// The length of the character there, if it is of the set or, from 128 on, at least of the level.
pub fn char_at<C: Class, const LEAST: u8>(s: &[u8], at: usize) -> Option<usize>
    requires { (at < length s.now) × (1 ≤ LEAST) }
    ensures { CharAt C.set LEAST s.now at result }
{
    let b = s[at];
    if 128 <= b {
        return wide_char(s, at, LEAST);
    }
    if C::has(b) {
        return Some(1);
    }
    None
}
