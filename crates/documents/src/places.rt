// The line and the column of a place.
ghost use Rattle.std.specs.Prelude.{◌≡◌, ◌+◌, ◌<◌, ◌≤◌, length, not, take_while};
ghost use Rattle.documents.specs.Places.{ends_line, passed, within, place, breaks, line_end};

// Line and column of a place, from 1 on, and the place where its line begins.
#[derive(Clone, Copy, Debug, PartialEq, Eq)]
pub struct Place {
    pub line: usize,
    pub column: usize,
    pub start: usize,
}

impl Place {
    // The place behind one more byte.
    #[tactic(auto, unfolding(crate::specs::Places::passed))]
    fn passed(self, i: usize, b: u8, ends: bool) -> Place
        requires { (self.line ≤ i + 1) × (self.column ≤ i + 1) × (i < 9223372036854775807) }
        ensures { result ≡ passed i b ends self }
    {
        if ends {
            return Place {
                line: self.line + 1,
                column: 1,
                start: i + 1,
            };
        }
        if (0x80..=0xBF).contains(&b) {
            return self;
        }
        Place {
            column: self.column + 1,
            ..self
        }
    }
}

// Whether the byte is the last of a line end.
#[tactic(auto, unfolding(crate::specs::Places::ends_line))]
fn ends_line(document: &[u8], i: usize) -> bool
    requires { i < length document.now }
    ensures { result ≡ ends_line document.now i }
{
    match document[i] {
        b'\n' => true,
        b'\r' => document.get(i + 1) != Some(&b'\n'),
        _ => false,
    }
}

// Where a place is; one past the end is the end.
pub fn place_of(document: &[u8], at: usize) -> Place
    ensures { result ≡ place document.now (within document.now at) }
{
    let mut p = Place {
        line: 1,
        column: 1,
        start: 0,
    };
    for i in 0..at.min(document.len()) {
        p = p.passed(i, document[i], ends_line(document, i));
    }
    p
}

// How many bytes there are up to the next LF or CR.
fn left_in_line(s: &[u8]) -> usize
    ensures { result ≡ length (take_while (λ b. not (breaks b)) s.now) }
{
    s.iter()
        .take_while(|b| **b != b'\n' && **b != b'\r')
        .count()
}

// Where the line of a place ends: before its LF or CR, or with the document.
pub fn line_end(document: &[u8], at: usize) -> usize
    ensures { result ≡ line_end document.now at }
{
    if document.len() < at {
        return at;
    }
    at + left_in_line(&document[at..])
}
