// Cutting a document into tokens: what stands between two tokens, and the token at a place.
// The routines take the part of the document that starts at the cursor.
#![tactic(auto)]

ghost use Rattle.std.specs.Prelude.{◌≡◌, ◌≤◌, ◌<◌, length, get_or};
ghost use Rattle.token.specs.Regular.{in_ranges};
ghost use Rattle.automaton.specs.Run.{TokenAt};
ghost use Rattle.lexer_words.specs.Ahead.{NextAt};
ghost use Rattle.lexer.specs.Blanks.{white_spaces, CommentTo, BlanksAt};
ghost use Rattle.lexer.specs.Marks.{mark_code};

use automaton::{Next, Token};
use lexer_quoted::irirefs::iriref;
use lexer_quoted::strings::quoted;
use lexer_words::labels::label;
use lexer_words::locals::local_part;
use lexer_words::names::name;
use lexer_words::numbers::{dot, integer, signed};
use lexer_words::tags::at_sign;
use token::Kind;

// WS ::= #x20 | #x9 | #xD | #xA
fn is_white_space(b: u8) -> bool
    ensures { result ≡ in_ranges b white_spaces }
{
    (b == b' ') | (b == b'\t') | (b == b'\r') | (b == b'\n')
}

// The end of a comment: where a line ends, or the text.
fn comment_end(s: &[u8], at: usize) -> usize
    requires { at ≤ length s.now }
    ensures { CommentTo s.now at result }
{
    text::next_of_four(s, at, b'\n', b'\r', b'\n', b'\r')
}

// How many bytes of blanks and comments stand at the front. A `while`, since a comment is passed in one step.
pub fn skip_blanks(s: &[u8]) -> usize
    ensures { BlanksAt s.now result }
{
    let mut i: usize = 0;
    while i < s.len() {
        let b = s[i];
        if is_white_space(b) {
            i += 1;
        } else {
            if b != b'#' {
                return i;
            }
            i = comment_end(s, i + 1);
        }
    }
    i
}

// '^^'
fn carets(s: &[u8]) -> Option<Token>
    requires { (0 < length s.now) × (get_or s.now 0 0 ≡ 94) }
    ensures { TokenAt s.now result }
{
    if s.len() <= 1 {
        return None;
    }
    if s[1] == b'^' {
        return Some(Token {
            kind: Kind::CARETS,
            len: 2,
        });
    }
    None
}

// The kind of a mark of one byte that begins no other token.
fn mark_kind(b: u8) -> Option<usize>
    ensures { result ≡ mark_code b }
{
    match b {
        b',' => Some(Kind::COMMA),
        b';' => Some(Kind::SEMICOLON),
        b'[' => Some(Kind::OPEN_BRACKET),
        b']' => Some(Kind::CLOSE_BRACKET),
        b'(' => Some(Kind::OPEN_PAREN),
        b')' => Some(Kind::CLOSE_PAREN),
        b'{' => Some(Kind::OPEN_BRACE),
        b'}' => Some(Kind::CLOSE_BRACE),
        _ => None,
    }
}

// The token at the front, the longest that the terminals match there, if one can be read.
// No prefixed name begins within the first `clear` bytes (0 says nothing), nor within the `clear` bytes after the token.
pub fn next_token(s: &[u8], clear: usize) -> Option<Next>
    ensures { NextAt s.now clear result }
{
    let b = *s.first()?;
    let token = match mark_kind(b) {
        Some(kind) => Token { kind, len: 1 },
        None => match b {
            b'<' => iriref(s)?,
            b'"' | b'\'' => quoted(s, b)?,
            b'+' | b'-' => signed(s)?,
            b'0'..=b'9' => integer(s, 1),
            b'.' => dot(s),
            b'@' => at_sign(s)?,
            b'_' => label(s)?,
            b':' => local_part(s, 1),
            b'^' => carets(s)?,
            _ => return name(s, clear),
        },
    };
    Some(Next {
        token,
        clear: clear.saturating_sub(token.len),
    })
}
