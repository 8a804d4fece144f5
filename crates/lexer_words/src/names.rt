// Prefixed names and keywords. A word needs no end: `atrue` is two keywords, and `true.x:y` is one name, so the run of
// characters after a keyword is followed to see whether a colon comes. `clear` says how far that was done before.
ghost use Rattle.std.specs.Prelude.{◌≡◌, false, ◌≤◌, ◌<◌, length, get_or};
ghost use Rattle.token.specs.Regular.{in_ranges};
ghost use Rattle.automaton.specs.States.{in_prefix};
ghost use Rattle.automaton.specs.Run.{At};
ghost use Rattle.lexer_words.specs.Agree.{Word};
ghost use Rattle.lexer_words.specs.Ahead.{NextAt, word_of, settled};
ghost use Rattle.lexer_words.specs.Runs.{RunAt};
ghost use Rattle.lexer_words.specs.Front.{mark};

use crate::locals::local_part;
use crate::words::agree;
use automaton::{Next, Token};
use characters::classes::{Letter, Name};
use characters::names::{BASE, INNER, char_at};
use characters::runs::run;
use token::Kind;

// The end of the run of PN_CHARS and dots there. A `while`, since a character has up to four bytes.
fn name_run(s: &[u8], at: usize) -> usize
    requires { at ≤ length s.now }
    ensures { RunAt s.now at result }
{
    let mut i: usize = run::<Name>(s, at);
    while i < s.len() {
        let b = s[i];
        if b == b'.' {
            i += 1;
        } else {
            let Some(n) = char_at::<Name, INNER>(s, i) else {
                return i;
            };
            i += n;
        }
    }
    i
}

// The beginning of a name: its length, and the kind of the keyword that it is, if it is one.
#[derive(Drop)]
struct Stem {
    kind: Option<usize>,
    len: usize,
}

// The stem, if it is a token: no name begins from its end to i.
fn settle(stem: Stem, i: usize) -> Option<Next>
    requires { stem.len ≤ i }
    ensures { result ≡ settled stem.kind stem.len i }
{
    let token = Token {
        kind: stem.kind?,
        len: stem.len,
    };
    Some(Next {
        token,
        clear: i - stem.len,
    })
}

// PN_PREFIX ::= PN_CHARS_BASE ((PN_CHARS | '.')* PN_CHARS)?, within it: a name where the run ends at a colon, and not with a dot.
fn prefix_rest(s: &[u8], stem: Stem) -> Option<Next>
    requires { At s.now in_prefix stem.len (word_of stem.kind stem.len) }
    ensures { NextAt s.now 0 result }
{
    let i = name_run(s, stem.len);
    if s.len() <= i {
        return settle(stem, i);
    }
    if s[i] != b':' {
        return settle(stem, i);
    }
    if stem.len < i {
        if s[i - 1] == b'.' {
            return settle(stem, i);
        }
    }
    Some(Next {
        token: local_part(s, i + 1),
        clear: 0,
    })
}

// The stem, or the name that goes on from it: where it is known that no name begins here, nothing more is read.
fn word_or_name(s: &[u8], stem: Stem, clear: usize) -> Option<Next>
    requires { At s.now in_prefix stem.len (word_of stem.kind stem.len) × (get_or s.now 0 0 ≡ 58 → ⊥) }
    ensures { NextAt s.now clear result }
{
    if clear == 0 {
        return prefix_rest(s, stem);
    }
    let token = Token {
        kind: stem.kind?,
        len: stem.len,
    };
    Some(Next {
        token,
        clear: clear.saturating_sub(stem.len),
    })
}

// A keyword, in small or capital letters, or as much of it as stands there.
fn keyword<'a>(s: &'a [u8], low: &'a [u8], up: &'a [u8], kind: usize) -> Stem
    requires { (length low.now ≡ length up.now) × Word s.now 0 low.now up.now in_prefix kind 0 }
    ensures { At s.now in_prefix result.len (word_of result.kind result.len) }
{
    let len = agree(s, 0, low, up);
    if len == low.len() {
        return Stem {
            kind: Some(kind),
            len,
        };
    }
    Stem { kind: None, len }
}

// PNAME_NS ::= PN_PREFIX? ':' with a prefix, PNAME_LN, a keyword, or nothing.
pub fn name(s: &[u8], clear: usize) -> Option<Next>
    requires { (0 < length s.now) × (in_ranges (get_or s.now 0 0) mark ≡ false) }
    ensures { NextAt s.now clear result }
{
    let stem = match s[0] {
        b'a' => Stem {
            kind: Some(Kind::A),
            len: 1,
        },
        b't' => keyword(s, b"true", b"true", Kind::TRUE),
        b'f' => keyword(s, b"false", b"false", Kind::FALSE),
        b'p' | b'P' => keyword(s, b"prefix", b"PREFIX", Kind::PREFIX),
        b'b' | b'B' => keyword(s, b"base", b"BASE", Kind::BASE),
        b'g' | b'G' => keyword(s, b"graph", b"GRAPH", Kind::GRAPH),
        _ => Stem {
            kind: None,
            len: char_at::<Letter, BASE>(s, 0)?,
        },
    };
    word_or_name(s, stem, clear)
}
