// LANGTAG, @prefix and @base.
ghost use Rattle.std.specs.Prelude.{Some, None};
ghost use Rattle.token.specs.Kind.{kind_code, LANGTAG};
ghost use Rattle.automaton.specs.States.{after_at, in_tag};
ghost use Rattle.automaton.specs.Run.{tok, At, TokenAt};
ghost use Rattle.lexer_words.specs.Agree.{Word, TagAt};

use crate::words::agree;
use automaton::Token;
use characters::bytes::is_letter;
use characters::classes::{Letter, LetterOrDigit};
use characters::runs::run;
use token::Kind;

// LANGTAG ::= '@' [a-zA-Z]+ ('-' [a-zA-Z0-9]+)*, after its first letters. A `while`, since a subtag is passed in one step.
fn subtags(s: &[u8], at: usize, kind: usize) -> Token
    requires { TagAt s.now at kind }
    ensures { TokenAt s.now (Some result) }
{
    let mut end: usize = at;
    let mut k: usize = kind;
    while end < s.len() {
        if s[end] != b'-' {
            return Token { kind: k, len: end };
        }
        let i = run::<LetterOrDigit>(s, end + 1);
        if i == end + 1 {
            return Token { kind: k, len: end };
        }
        end = i;
        k = Kind::LANGTAG;
    }
    Token { kind: k, len: end }
}

// Within the first letters: what was a keyword so far is one where no letter follows.
fn tag(s: &[u8], at: usize, kind: usize) -> Token
    requires { At s.now in_tag at (Some (tok kind at)) }
    ensures { TokenAt s.now (Some result) }
{
    let i = run::<Letter>(s, at);
    if i == at {
        return subtags(s, at, kind);
    }
    subtags(s, i, Kind::LANGTAG)
}

// "Where @prefix or @base is the whole match, it is the keyword, never a LANGTAG"
fn directive<'a>(s: &'a [u8], word: &'a [u8], kind: usize) -> Token
    requires { Word s.now 1 word.now word.now in_tag kind (kind_code LANGTAG) }
    ensures { TokenAt s.now (Some result) }
{
    let m = agree(s, 1, word, word);
    if m == word.len() {
        return tag(s, 1 + m, kind);
    }
    tag(s, 1 + m, Kind::LANGTAG)
}

// After the @.
pub fn at_sign(s: &[u8]) -> Option<Token>
    requires { At s.now after_at 1 None }
    ensures { TokenAt s.now result }
{
    if s.len() < 2 {
        return None;
    }
    let b = s[1];
    if b == b'p' {
        return Some(directive(s, b"prefix", Kind::AT_PREFIX));
    }
    if b == b'b' {
        return Some(directive(s, b"base", Kind::AT_BASE));
    }
    if is_letter(b) {
        return Some(tag(s, 2, Kind::LANGTAG));
    }
    None
}
