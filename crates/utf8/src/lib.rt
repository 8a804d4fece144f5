// UTF-8: the sequence at the front of some bytes, its code point, and the first bad sequence of a text.
#![tactic(auto)]

ghost use Rattle.std.specs.Prelude.{◌≡◌, ◌<◌, take, MatchOption};
ghost use Rattle.text.specs.Text.{is_none, between};
ghost use Rattle.utf8.specs.Utf8.{sequence_size, code_point, first_bad};
ghost use Rattle.utf8.specs.Code.{lead_size, second_low, second_high, bad_place};

// A code point and how many bytes it has.
#[derive(Clone, Copy)]
pub struct CodePoint {
    pub value: u32,
    pub size: usize,
}

fn is_between(lo: u8, hi: u8, b: u8) -> bool
    ensures { result ≡ between lo hi b }
{
    (lo..=hi).contains(&b)
}

// "the leading one bits of the first byte say how many bytes follow": the size that a first byte says, 0 where none begins with it.
fn lead_size(b: u8) -> usize
    ensures { result ≡ lead_size b }
{
    match b {
        0..=0x7F => 1,
        0xC2..=0xF4 => b.leading_ones() as usize,
        _ => 0,
    }
}

// The range of the second byte: "overlong forms and surrogates are bad".
fn second_low(b: u8) -> u8
    ensures { result ≡ second_low b }
{
    match b {
        0xE0 => 0xA0,
        0xF0 => 0x90,
        _ => 0x80,
    }
}

fn second_high(b: u8) -> u8
    ensures { result ≡ second_high b }
{
    match b {
        0xED => 0x9F,
        0xF4 => 0x8F,
        _ => 0xBF,
    }
}

// How many bytes the sequence at the front has; 0 where there is none, as in the definition, which the contract says.
pub fn sequence_size(s: &[u8]) -> usize
    ensures { result ≡ sequence_size s.now }
{
    if s.len() == 0 {
        return 0;
    }
    let b = s[0];
    let n = lead_size(b);
    if n < 2 {
        return n;
    }
    if s.len() < n {
        return 0;
    }
    if !is_between(second_low(b), second_high(b), s[1]) {
        return 0;
    }
    if n == 2 {
        return 2;
    }
    if !is_between(0x80, 0xBF, s[2]) {
        return 0;
    }
    if n == 3 {
        return 3;
    }
    if !is_between(0x80, 0xBF, s[3]) {
        return 0;
    }
    4
}

fn wide(b: u8) -> u32
    ensures { result ≡ b }
{
    u32::from(b)
}

// The code point at the front, if a sequence stands there.
pub fn read_code_point(s: &[u8]) -> Option<CodePoint>
    ensures { MatchOption result (sequence_size s.now ≡ 0) (λ c. (0 < c.size) × (c.size ≡ sequence_size s.now) × (c.value ≡ code_point (take (sequence_size s.now) s.now))) }
{
    let n = sequence_size(s);
    if n == 0 {
        return None;
    }
    let b = wide(s[0]);
    if n == 1 {
        return Some(CodePoint { value: b, size: 1 });
    }
    if n == 2 {
        return Some(CodePoint {
            value: b % 32 * 64 + wide(s[1]) % 64,
            size: 2,
        });
    }
    if n == 3 {
        return Some(CodePoint {
            value: (b % 16 * 64 + wide(s[1]) % 64) * 64 + wide(s[2]) % 64,
            size: 3,
        });
    }
    Some(CodePoint {
        value: ((b % 8 * 64 + wide(s[1]) % 64) * 64 + wide(s[2]) % 64) * 64 + wide(s[3]) % 64,
        size: 4,
    })
}

// Where the first bad sequence of a text begins, if there is one. A `while`, since each turn passes a sequence or a run of ASCII.
pub fn first_bad(s: &[u8]) -> Option<usize>
    ensures { bad_place result ≡ first_bad s.now }
{
    let mut i: usize = 0;
    while i < s.len() {
        if s[i] < 128 {
            i = text::next_high(s, i + 1);
        } else {
            let n = sequence_size(&s[i..]);
            if n == 0 {
                return Some(i);
            }
            i += n;
        }
    }
    None
}

pub fn is_utf8(s: &[u8]) -> bool
    ensures { result ≡ is_none (first_bad s.now) }
{
    first_bad(s).is_none()
}
