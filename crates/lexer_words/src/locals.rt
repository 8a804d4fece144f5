// The local part of a prefixed name.
ghost use Rattle.std.specs.Prelude.{◌≡◌, Some, ◌<◌, length, drop};
ghost use Rattle.token.specs.Kind.{kind_code, PNAME_NS, PNAME_LN};
ghost use Rattle.automaton.specs.States.{after_colon, in_local};
ghost use Rattle.automaton.specs.Run.{tok, At, TokenAt};
ghost use Rattle.characters.specs.Bytes.{local, local_first};
ghost use Rattle.characters.specs.Names.{base, inner};
ghost use Rattle.lexer_words.specs.Locals.{plx_size, LocalAt};

use automaton::Token;
use characters::bytes::is_reserved;
use characters::classes::{Local, LocalFirst};
use characters::names::{BASE, INNER, char_at};
use characters::runs::{hexes, run};
use token::Kind;

// PLX ::= PERCENT | PN_LOCAL_ESC, where PERCENT ::= '%' HEX HEX: its length.
fn plx(s: &[u8], at: usize) -> Option<usize>
    requires { at < length s.now }
    ensures { result ≡ plx_size (drop at s.now) }
{
    let b = s[at];
    if b == b'%' {
        if hexes(s, at + 1, 2) {
            return Some(3);
        }
        return None;
    }
    if b != b'\\' {
        return None;
    }
    if s.len() - at <= 1 {
        return None;
    }
    if is_reserved(s[at + 1]) {
        return Some(2);
    }
    None
}

// PN_CHARS_U | ':' | [0-9] | PLX: its length.
fn local_first(s: &[u8], at: usize) -> Option<usize>
    requires { at < length s.now }
    ensures { LocalAt local_first base s.now at result }
{
    if let Some(n) = char_at::<LocalFirst, BASE>(s, at) {
        return Some(n);
    }
    plx(s, at)
}

// PN_CHARS | ':' | PLX: its length.
fn local_next(s: &[u8], at: usize) -> Option<usize>
    requires { at < length s.now }
    ensures { LocalAt local inner s.now at result }
{
    if let Some(n) = char_at::<Local, INNER>(s, at) {
        return Some(n);
    }
    plx(s, at)
}

// PN_LOCAL ::= (PN_CHARS_U | ':' | [0-9] | PLX) ((PN_CHARS | '.' | ':' | PLX)* (PN_CHARS | ':' | PLX))?, after its first character.
// Dots at its end are given back. A `while`, since a character has up to four bytes.
fn local_rest(s: &[u8], at: usize) -> Token
    requires { At s.now in_local at (Some (tok (kind_code PNAME_LN) at)) }
    ensures { TokenAt s.now (Some result) }
{
    let mut i: usize = run::<Local>(s, at);
    let mut end: usize = i;
    while i < s.len() {
        if s[i] == b'.' {
            i += 1;
        } else {
            let Some(n) = local_next(s, i) else {
                break;
            };
            i += n;
            end = i;
        }
    }
    Token {
        kind: Kind::PNAME_LN,
        len: end,
    }
}

// PNAME_NS ::= PN_PREFIX? ':'
// PNAME_LN ::= PNAME_NS PN_LOCAL, after the colon.
pub fn local_part(s: &[u8], at: usize) -> Token
    requires { At s.now after_colon at (Some (tok (kind_code PNAME_NS) at)) }
    ensures { TokenAt s.now (Some result) }
{
    if at < s.len() {
        if let Some(n) = local_first(s, at) {
            return local_rest(s, at + n);
        }
    }
    Token {
        kind: Kind::PNAME_NS,
        len: at,
    }
}
