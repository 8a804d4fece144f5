// BLANK_NODE_LABEL.
ghost use Rattle.std.specs.Prelude.{Some, None};
ghost use Rattle.token.specs.Kind.{kind_code, BLANK_NODE_LABEL};
ghost use Rattle.automaton.specs.States.{after_underscore, in_label};
ghost use Rattle.automaton.specs.Run.{tok, At, TokenAt};

use automaton::Token;
use characters::classes::{LabelFirst, Name};
use characters::names::{BASE, INNER, char_at};
use characters::runs::run;
use token::Kind;

// BLANK_NODE_LABEL ::= '_:' (PN_CHARS_U | [0-9]) ((PN_CHARS | '.')* PN_CHARS)?, after its first character.
// Dots at its end are given back. A `while`, since a character has up to four bytes.
fn label_rest(s: &[u8], at: usize) -> Token
    requires { At s.now in_label at (Some (tok (kind_code BLANK_NODE_LABEL) at)) }
    ensures { TokenAt s.now (Some result) }
{
    let mut i: usize = run::<Name>(s, at);
    let mut end: usize = i;
    while i < s.len() {
        if s[i] == b'.' {
            i += 1;
        } else {
            let Some(n) = char_at::<Name, INNER>(s, i) else {
                break;
            };
            i += n;
            end = i;
        }
    }
    Token {
        kind: Kind::BLANK_NODE_LABEL,
        len: end,
    }
}

// After the underscore.
pub fn label(s: &[u8]) -> Option<Token>
    requires { At s.now after_underscore 1 None }
    ensures { TokenAt s.now result }
{
    if s.len() < 2 {
        return None;
    }
    if s[1] != b':' {
        return None;
    }
    if s.len() < 3 {
        return None;
    }
    let n = char_at::<LabelFirst, BASE>(s, 2)?;
    Some(label_rest(s, 2 + n))
}
