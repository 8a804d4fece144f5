// The cursor: the token at the place where the reader is, kept in words of its state.
#![tactic(auto)]

ghost use Rattle.std.specs.Prelude.{◌≡◌, ◌+◌, ◌≤◌, length, get_or, drop};
ghost use Rattle.std.proofs.Math.Option.{none};
ghost use Rattle.limits.specs.Limits.{document_limit};
ghost use Rattle.utf8.specs.Utf8.{first_bad};
ghost use Rattle.lexer_words.specs.Ahead.{Clear};
ghost use Rattle.environment.specs.Code.{words_size};
ghost use Rattle.state.specs.Words.{at_in, len_in};
ghost use Rattle.state.specs.Cursor.{Cursor, TokenHere, Sought};
ghost use Rattle.cursor.specs.Code.{put_token, kind_of_none};

use environment::Layout;
use state::Words;
use token::Kind;

fn put(st: &mut [usize; Layout::WORDS], kind: usize, at: usize, len: usize, clear: usize)
    ensures { st.new ≡ put_token st.old kind at len clear }
{
    st[Words::KIND] = kind;
    st[Words::AT] = at;
    st[Words::LEN] = len;
    st[Words::CLEAR] = clear;
}

// The kind of a place where no token is read: none can be, or the document ends.
fn kind_of_none(at: usize, size: usize) -> usize
    ensures { result ≡ kind_of_none at size }
{
    if at < size {
        return Kind::UNREADABLE;
    }
    Kind::END
}

// Goes to the first token from a place on. No prefixed name begins within the `clear` bytes behind that place.
pub fn seek(doc: &[u8], st: &mut [usize; Layout::WORDS], at: usize, clear: usize)
    requires { ((length doc.now ≤ document_limit) × (at ≤ length doc.now)) × ((first_bad (drop at doc.now) ≡ none) × (Clear (drop at doc.now) clear × (length st.old ≡ words_size))) }
    ensures { Sought doc.now at st.old st.new }
{
    let b = lexer::skip_blanks(&doc[at..]);
    let start = at + b;
    let Some(next) = lexer::next_token(&doc[start..], clear.saturating_sub(b)) else {
        put(st, kind_of_none(start, doc.len()), start, 0, 0);
        return;
    };
    put(st, next.token.kind, start, next.token.len, next.clear);
}

// Goes behind the token at the cursor.
pub fn advance(doc: &[u8], st: &mut [usize; Layout::WORDS])
    requires { (Cursor doc.now st.old × TokenHere doc.now st.old) × (length st.old ≡ words_size) }
    ensures { Sought doc.now (at_in st.old + len_in st.old) st.old st.new }
{
    let at = st[Words::AT] + st[Words::LEN];
    let clear = st[Words::CLEAR];
    seek(doc, st, at, clear);
}
