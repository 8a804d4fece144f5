// A reader over a document that knows its place: it answers the next token there, and adds no rule to the cutting into tokens.
// The struct holds the document, and each function over it is thin. The work is done by
// `next_token_from`, which takes the document and the place by themselves.
#![tactic(auto)]

ghost use Rattle.std.specs.Prelude.{◌≡◌};
ghost use Rattle.token_reader.specs.Next.{NextFrom};

use token::Kind;

#[derive(Clone, Copy)]
pub struct TokenReader<'a> {
    pub document: &'a [u8],
    pub place: usize,
}

// The token at a place: its kind (of token::Kind, or END or UNREADABLE), the place of its first byte, and the place behind it.
// Numbers for the last two, since docs/PROMISES.md names them, and `NextFrom` says where each of the three begins and ends.
#[derive(Clone, Copy)]
pub struct TokenAt {
    pub kind: usize,
    pub start: usize,
    pub end: usize,
}

impl TokenAt {
    // The document has no token from the place on.
    pub const END: usize = Kind::END;

    // No token can be read where the next would begin.
    pub const UNREADABLE: usize = Kind::UNREADABLE;
}

// The first token from a place on. A place past the end is as the end. Nothing is known of the text ahead: the reader keeps
// a place and no more, so `next_token` is told of 0 bytes that begin no name.
pub fn next_token_from(document: &[u8], place: usize) -> TokenAt
    ensures { NextFrom document.now place result }
{
    let size = document.len();
    if size < place {
        return TokenAt {
            kind: TokenAt::END,
            start: size,
            end: size,
        };
    }
    let start = place + lexer::skip_blanks(&document[place..]);
    if let Some(next) = lexer::next_token(&document[start..], 0) {
        let t = next.token;
        // Not that there is one: whatever the bytes are, a token that is answered has some, and a loop over the tokens goes on.
        if t.len != 0 {
            return TokenAt {
                kind: t.kind,
                start: start,
                end: start + t.len,
            };
        }
    }
    if start < size {
        return TokenAt {
            kind: TokenAt::UNREADABLE,
            start: start,
            end: start,
        };
    }
    TokenAt {
        kind: TokenAt::END,
        start: size,
        end: size,
    }
}

// A reader at the beginning of a document.
pub fn make<'a>(document: &'a [u8]) -> TokenReader<'a>
    ensures { (result.document ≡ document.entry) × (result.place ≡ 0) }
{
    TokenReader { document, place: 0 }
}

// Where the reader is.
pub fn place<'a>(reader: TokenReader<'a>) -> usize
    ensures { result ≡ reader.entry.place }
{
    reader.place
}

// The first token from the reader's place on.
pub fn next<'a>(reader: TokenReader<'a>) -> TokenAt
    ensures { NextFrom reader.entry.document.now reader.entry.place result }
{
    next_token_from(reader.document, reader.place)
}

// The reader behind a token.
pub fn moved<'a>(reader: TokenReader<'a>, token: TokenAt) -> TokenReader<'a>
    ensures { (result.document ≡ reader.entry.document) × (result.place ≡ token.end) }
{
    TokenReader {
        document: reader.document,
        place: token.end,
    }
}
