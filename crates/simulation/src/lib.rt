// How the reader's routines compose: what each says of the machine's run. The code here is the refusal of a token that no
// rule takes.
#![tactic(auto)]

ghost use Rattle.std.specs.Prelude.{◌≡◌, ◌+◌, ◌≤◌, length, get_or};
ghost use Rattle.limits.specs.Refusal.{number};
ghost use Rattle.environment.specs.Code.{words_size};
ghost use Rattle.token.specs.Kind.{kind_of_code, among, IRIREF, strings};
ghost use Rattle.state.specs.Words.{kind_word, at_word, len_word};
ghost use Rattle.state.specs.Cursor.{Cursor};
ghost use Rattle.simulation.specs.Simulation.{refusal_here, escaped_kind};

use environment::Layout;
use limits::Refusal;
use state::Words;
use token::Kind;

// Whether a token of this kind may hold numeric escapes: an IRIREF, or a string.
pub fn has_escapes(kind: usize) -> bool
    ensures { result ≡ escaped_kind kind }
{
    (kind == Kind::IRIREF)
        | (kind == Kind::STRING_LITERAL_QUOTE)
        | (kind == Kind::STRING_LITERAL_SINGLE_QUOTE)
        | (kind == Kind::STRING_LITERAL_LONG_QUOTE)
        | (kind == Kind::STRING_LITERAL_LONG_SINGLE_QUOTE)
}

// 6, 7 or 8.
pub fn unexpected(doc: &[u8], st: &[usize; Layout::WORDS]) -> Refusal
    requires { Cursor doc.now st.now × (length st.now ≡ words_size) }
    ensures { number result ≡ refusal_here doc.now st.now }
{
    let kind = st[Words::KIND];
    if kind == Kind::UNREADABLE {
        return Refusal::Token;
    }
    if has_escapes(kind) {
        let at = st[Words::AT];
        let end = at + st[Words::LEN];
        if escape::has_bad_escape(&doc[at..end]) {
            return Refusal::Escape;
        }
    }
    Refusal::Grammar
}
