// Strings.
ghost use Rattle.std.specs.Prelude.{◌≡◌, true, false, ◌⊎◌, ◌≤◌, ◌<◌, length, get_or};
ghost use Rattle.token.specs.Terminals.{tripled};
ghost use Rattle.automaton.specs.Run.{TokenAt};
ghost use Rattle.lexer_quoted.specs.Quotes.{Short, Long};

use crate::escapes::escape;
use automaton::Token;
use token::Kind;

// STRING_LITERAL_QUOTE ::= '"' ([^#x22#x5C#xA#xD] | ECHAR | UCHAR)* '"'
// STRING_LITERAL_SINGLE_QUOTE ::= "'" ([^#x27#x5C#xA#xD] | ECHAR | UCHAR)* "'"
// A `while`, since an escape and a run of other bytes are passed in one step each.
fn short_string(s: &[u8], quote: u8, kind: usize) -> Option<Token>
    requires { (0 < length s.now) × (get_or s.now 0 0 ≡ quote) × Short quote kind × (tripled s.now ≡ false) }
    ensures { TokenAt s.now result }
{
    let mut i: usize = 1;
    while i < s.len() {
        let b = s[i];
        if b == quote {
            return Some(Token { kind, len: i + 1 });
        }
        if b == b'\n' {
            return None;
        }
        if b == b'\r' {
            return None;
        }
        if b == b'\\' {
            let n = escape(s, i + 1)?;
            i = i + 1 + n;
        } else {
            i = text::next_of_four(s, i + 1, quote, b'\n', b'\r', b'\\');
        }
    }
    None
}

// STRING_LITERAL_LONG_QUOTE ::= '"""' (('"' | '""')? ([^"\] | ECHAR | UCHAR))* '"""'
// STRING_LITERAL_LONG_SINGLE_QUOTE ::= "'''" (("'" | "''")? ([^'\] | ECHAR | UCHAR))* "'''"
// The first three quotes in a row end it; run is how many stand before i. A `while`, as above.
fn long_string(s: &[u8], quote: u8, kind: usize) -> Option<Token>
    requires { (3 ≤ length s.now) × (get_or s.now 0 0 ≡ quote) × Long quote kind × (tripled s.now ≡ true) }
    ensures { TokenAt s.now result }
{
    let mut i: usize = 3;
    let mut run: usize = 0;
    while i < s.len() {
        let b = s[i];
        if b == quote {
            if run == 2 {
                return Some(Token { kind, len: i + 1 });
            }
            run += 1;
            i += 1;
        } else {
            run = 0;
            if b == b'\\' {
                let n = escape(s, i + 1)?;
                i = i + 1 + n;
            } else {
                i = text::next_of_four(s, i + 1, quote, b'\\', quote, b'\\');
            }
        }
    }
    None
}

// The kinds of a quote's short and long strings.
fn kinds(quote: u8) -> (usize, usize)
    requires { (quote ≡ 34) ⊎ (quote ≡ 39) }
    ensures { Short quote result.0 × Long quote result.1 }
{
    if quote == b'"' {
        return (Kind::STRING_LITERAL_QUOTE, Kind::STRING_LITERAL_LONG_QUOTE);
    }
    (
        Kind::STRING_LITERAL_SINGLE_QUOTE,
        Kind::STRING_LITERAL_LONG_SINGLE_QUOTE,
    )
}

// "Three equal quotes open a long string and nothing else"
pub fn quoted(s: &[u8], quote: u8) -> Option<Token>
    requires { (0 < length s.now) × (get_or s.now 0 0 ≡ quote) × ((quote ≡ 34) ⊎ (quote ≡ 39)) }
    ensures { TokenAt s.now result }
{
    let (short, long) = kinds(quote);
    if s.len() < 3 || s[1] != quote || s[2] != quote {
        return short_string(s, quote, short);
    }
    long_string(s, quote, long)
}
