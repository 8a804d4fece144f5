// IRIREF.
ghost use Rattle.std.specs.Prelude.{◌≡◌, ◌+◌, ◌≤◌, ◌<◌, length, get_or};
ghost use Rattle.text.specs.Runs.{free, next_at};
ghost use Rattle.automaton.specs.Run.{TokenAt};
ghost use Rattle.lexer_quoted.specs.Stops.{iri_stop};

use crate::escapes::uchar;
use automaton::Token;
use characters::bytes::is_iri;
use token::Kind;

// Whether a run of an IRIREF's text stops at a byte. By comparisons, which the compiler makes for many bytes at once.
fn stops(b: u8) -> bool
    ensures { result ≡ iri_stop b }
{
    (b <= 32)
        | (b == b'"')
        | (b == b'<')
        | (b == b'>')
        | (b == b'\\')
        | (b == b'^')
        | (b == b'`')
        | (b == b'{')
        | (b == b'|')
        | (b == b'}')
}

// Whether it stops at none of the eight bytes from a place on.
fn no_stop_8(s: &[u8], at: usize) -> bool
    requires { at + 8 ≤ length s.now }
    ensures { result ≡ free iri_stop s.now at 8 }
{
    !stops(s[at + 0])
        & !stops(s[at + 1])
        & !stops(s[at + 2])
        & !stops(s[at + 3])
        & !stops(s[at + 4])
        & !stops(s[at + 5])
        & !stops(s[at + 6])
        & !stops(s[at + 7])
}

// The place of the next byte at which it stops, or the end: byte by byte, for which the bits of is_iri are faster.
fn next_stop_near(s: &[u8], at: usize) -> usize
    requires { at ≤ length s.now }
    ensures { (result ≡ next_at iri_stop s.now at) × ((at ≤ result) × (result ≤ length s.now)) }
{
    let mut i = at;
    while i < s.len() {
        let b = s[i];
        if b < 128 {
            if !is_iri(b) {
                return i;
            }
        }
        i += 1;
    }
    i
}

// The same, eight bytes at a time as far as it stops at none of them.
fn next_stop(s: &[u8], at: usize) -> usize
    requires { at ≤ length s.now }
    ensures { (result ≡ next_at iri_stop s.now at) × ((at ≤ result) × (result ≤ length s.now)) }
{
    let mut i = at;
    while 8 <= s.len() - i {
        if !no_stop_8(s, i) {
            return next_stop_near(s, i);
        }
        i += 8;
    }
    next_stop_near(s, i)
}

// IRIREF ::= '<' ([^#x00-#x20<>"{}|^`\] | UCHAR)* '>'. A `while`, since an escape and a run are passed in one step each.
pub fn iriref(s: &[u8]) -> Option<Token>
    requires { (0 < length s.now) × (get_or s.now 0 0 ≡ 60) }
    ensures { TokenAt s.now result }
{
    let mut i: usize = next_stop(s, 1);
    while i < s.len() {
        let b = s[i];
        if b == b'\\' {
            let n = uchar(s, i + 1)?;
            i = next_stop(s, i + 1 + n);
        } else {
            if b == b'>' {
                return Some(Token {
                    kind: Kind::IRIREF,
                    len: i + 1,
                });
            }
            return None;
        }
    }
    None
}
