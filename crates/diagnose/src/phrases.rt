// The phrases that are printed, from one table with a line for each, which main lends to whoever prints. The table and the output stay
// two arguments: a struct of both would have each contract say besides that its table stays.
ghost use Rattle.std.specs.Prelude.{◌≡◌, ◌<◌, ◌≤◌, [], ◌∷◌, OnOk, drop, length, slice_range};
ghost use Rattle.std.specs.Io.KnownBytes.{Appends, Keeps};
ghost use Rattle.limits.specs.Refusal.{number};
ghost use Rattle.diagnose.specs.Meaning.{meaning, unreadable};
ghost use Rattle.diagnose.specs.Phrase.{behind, phrase};

use limits::Refusal;
use reader::Refused;
use std::io;
use std::io::Write;
use token::Kind;

// The phrases by their lines, which stay numbers: a kind of token and a refusal come to theirs by adding.
#[derive(Drop)]
pub struct Phrases {}

impl Phrases {
    // The lines 1 to Kind::LAST name the kinds of token, by their numbers.
    pub const PREFIX: usize = Kind::PNAME_NS;

    pub const NAME: usize = Kind::PNAME_LN;

    pub const END: usize = Kind::LAST + 1;
    // So many of them may be found to be expected.
    pub const FOUND: usize = Self::END + 1;
    // The lines behind END say what the answers 1 to 16 mean.
    pub const MEANINGS: usize = Self::END;

    pub const MAY_NOT_END: usize = Self::MEANINGS + 17;

    pub const COLON: usize = Self::MAY_NOT_END + 1;

    pub const THEN: usize = Self::COLON + 1;

    pub const REFUSED: usize = Self::THEN + 1;

    pub const AT: usize = Self::REFUSED + 1;

    pub const STATEMENT: usize = Self::AT + 1;

    pub const STATEMENTS: usize = Self::STATEMENT + 1;

    pub const UNREADABLE: usize = Self::STATEMENTS + 1;

    pub const INDENT: usize = Self::UNREADABLE + 1;

    pub const EXPECTED: usize = Self::INDENT + 1;

    pub const COMMA: usize = Self::EXPECTED + 1;

    pub const OR: usize = Self::COMMA + 1;

    pub const CUT: usize = Self::OR + 1;

    pub const BLANKS: usize = Self::CUT + 1;

    pub const NO_STRING: usize = Self::BLANKS + 1;

    pub const NO_IRI: usize = Self::NO_STRING + 1;

    pub const NO_WORD: usize = Self::NO_IRI + 1;
}

// Writes a part of a text; nothing where the text ends before the part does.
pub fn print_part<W: Write>(out: &mut W, s: &[u8], from: usize, to: usize) -> io::Result<()>
    ensures within { to ≤ length s.now → OnOk result (Appends (W.contents out.old) (W.contents out.new) (slice_range s.now from to)) }
    ensures past { length s.now < to → OnOk result (Keeps (W.contents out.old) (W.contents out.new)) }
{
    if to < from || s.len() < to {
        return Ok(());
    }
    out.write_all(&s[from..to])
}

pub fn end_line<W: Write>(out: &mut W) -> io::Result<()>
    ensures { OnOk result (Appends (W.contents out.old) (W.contents out.new) (10 ∷ [])) }
{
    out.write_all(b"\n")
}

// Where line n of the table begins.
fn line_start(words: &[u8], n: usize) -> usize
    ensures within { result ≤ length words.now }
    ensures line { drop result words.now ≡ behind n words.now }
{
    let mut left = n;
    for i in 0..words.len() {
        if left == 0 {
            return i;
        }
        if words[i] == b'\n' {
            left -= 1;
        }
    }
    words.len()
}

pub fn say<W: Write>(out: &mut W, words: &[u8], n: usize) -> io::Result<()>
    ensures { OnOk result (Appends (W.contents out.old) (W.contents out.new) (phrase words.now n)) }
{
    let from = line_start(words, n);
    print_part(out, words, from, documents::line_end(words, from))
}

// What begins with a byte where no token can be read.
fn unreadable(b: u8) -> usize
    ensures { result ≡ unreadable b }
{
    match b {
        b'"' | b'\'' => Phrases::NO_STRING,
        b'<' => Phrases::NO_IRI,
        b'a'..=b'z' | b'A'..=b'Z' => Phrases::NO_WORD,
        _ => Phrases::MEANINGS + 6,
    }
}

// The line that says what a refusal means.
pub fn meaning(document: &[u8], refused: Refused) -> usize
    ensures { result ≡ meaning document.now (number refused.refusal) refused.position }
{
    let at = refused.position;
    match refused.refusal {
        Refusal::Grammar if document.len() <= at => Phrases::MAY_NOT_END,
        Refusal::Token if at < document.len() => unreadable(document[at]),
        refusal => Phrases::MEANINGS + usize::from(u8::from(refusal)),
    }
}

// Whether a kind has a phrase of its own. The productions NumericLiteral and String take their kinds alike, so that one stands for all.
pub fn is_told(kind: usize) -> bool {
    !matches!(
        kind,
        Kind::DECIMAL
            | Kind::DOUBLE
            | Kind::STRING_LITERAL_SINGLE_QUOTE
            | Kind::STRING_LITERAL_LONG_QUOTE
            | Kind::STRING_LITERAL_LONG_SINGLE_QUOTE
    )
}

// What stands before a phrase of a list, behind which `left` are to follow.
fn separate<W: Write>(out: &mut W, words: &[u8], first: bool, left: usize) -> io::Result<()> {
    if first {
        return say(out, words, Phrases::EXPECTED);
    }
    if left == 1 {
        say(out, words, Phrases::OR)
    } else {
        say(out, words, Phrases::COMMA)
    }
}

// The phrases of what was found, as a list with commas and 'or'.
pub fn print_list<W: Write>(
    out: &mut W,
    words: &[u8],
    found: &[bool; Phrases::FOUND],
) -> io::Result<()> {
    let total = found.iter().filter(|f| **f).count();
    let mut left = total;
    for k in 1..Phrases::FOUND {
        if found[k] {
            separate(out, words, left == total, left)?;
            say(out, words, k)?;
            left = left.saturating_sub(1);
        }
    }
    if total != 0 {
        end_line(out)?;
    }
    Ok(())
}
