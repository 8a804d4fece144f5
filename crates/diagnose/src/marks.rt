// The line of a refusal, with marks under the token.
use crate::phrases::{Phrases, end_line, print_part, say};
use limits::Refusal;
use reader::Refused;
use std::io;
use std::io::Write;

// So many bytes of a line are shown at most: some before the place, and some 120 in all.
#[derive(Drop)]
struct Width {}

impl Width {
    const BEFORE: usize = 60;

    const SHOWN: usize = 120;

    const BUFFER: usize = 128;
}

fn is_continuation(b: u8) -> bool {
    (0x80..=0xBF).contains(&b)
}

// The first place from i on where a character begins, or the end.
fn character_from(document: &[u8], i: usize) -> usize {
    let rest = document.get(i..).unwrap_or(&[]);
    let within = rest.iter().take_while(|b| is_continuation(**b));
    i.saturating_add(within.count())
}

// Where what is shown of a line begins: some 60 bytes before the place, where the line begins before that.
fn window_start(document: &[u8], start: usize, at: usize) -> usize {
    let from = at.saturating_sub(Width::BEFORE);
    if from <= start {
        return start;
    }
    character_from(document, from)
}

// Where it ends: with the line, or some 120 bytes on.
fn window_end(document: &[u8], from: usize, end: usize) -> usize {
    let to = from.saturating_add(Width::SHOWN);
    if end <= to {
        return end;
    }
    character_from(document, to)
}

// The second byte of a control character, U+0080 to U+009F.
fn is_control(before: u8, b: u8) -> bool {
    before == 0xC2 && (0x80..0xA0).contains(&b)
}

// How a byte is shown: a tab as a blank, other controls as ?, or ¿ where they have two bytes; where the text is no UTF-8, all
// that is not ASCII as ? too.
fn shown(before: u8, b: u8, is_bad: bool) -> u8 {
    match b {
        0x80.. if is_bad => b'?',
        _ if is_control(before, b) => 0xBF,
        b'\t' => b' ',
        ..=0x1F | 0x7F => b'?',
        _ => b,
    }
}

// Puts a part of the document into a line, as it is shown; from `bad` on it is no UTF-8. The answer is its length.
fn fill_shown(line: &mut [u8], part: &[u8], bad: usize) -> usize {
    let mut before: u8 = 0;
    for (cell, (i, b)) in line.iter_mut().zip(part.iter().enumerate()) {
        *cell = shown(before, *b, bad <= i);
        before = *b;
    }
    line.len().min(part.len())
}

// A mark for each character of a part of the document, and at least so many.
fn print_marks<W: Write>(out: &mut W, part: &[u8], mark: u8, least: usize) -> io::Result<()> {
    let characters = part.iter().filter(|b| !is_continuation(**b)).count();
    let n = characters.max(least).min(Width::BUFFER);
    let line = [mark; Width::BUFFER];
    out.write_all(&line[..n])
}

// How long the token is that is marked.
fn token_length(document: &[u8], refused: Refused) -> usize {
    if refused.refusal == Refusal::Utf8 {
        return 0;
    }
    match document.get(refused.position..) {
        Some(rest) => lexer::next_token(rest, 0).map_or(0, |next| next.token.len),
        None => 0,
    }
}

// What is shown of the line that begins at `start`.
#[derive(Clone, Copy)]
struct Window<'a> {
    document: &'a [u8],
    start: usize,
    from: usize,
    to: usize,
}

impl<'a> Window<'a> {
    fn around(document: &'a [u8], at: usize) -> Window<'a> {
        let start = documents::place_of(document, at).start;
        let from = window_start(document, start, at);
        Window {
            document,
            start,
            from,
            to: window_end(document, from, documents::line_end(document, at)),
        }
    }

    fn part(&self, from: usize, to: usize) -> &'a [u8] {
        self.document.get(from..to).unwrap_or(&[])
    }

    fn print_text<W: Write>(&self, out: &mut W, words: &[u8], bad: usize) -> io::Result<()> {
        let mut line = [0u8; Width::BUFFER];
        let n = fill_shown(
            &mut line,
            self.part(self.from, self.to),
            bad.saturating_sub(self.from),
        );
        say(out, words, Phrases::INDENT)?;
        if self.start < self.from {
            say(out, words, Phrases::CUT)?;
        }
        print_part(out, &line, 0, n)?;
        if self.to < documents::line_end(self.document, self.from) {
            say(out, words, Phrases::CUT)?;
        }
        end_line(out)
    }

    // The marks stand under the token of so many bytes at a place, as far as it is shown.
    fn print_under<W: Write>(
        &self,
        out: &mut W,
        words: &[u8],
        at: usize,
        length: usize,
    ) -> io::Result<()> {
        let end = at.saturating_add(length).min(self.to);
        say(out, words, Phrases::INDENT)?;
        if self.start < self.from {
            say(out, words, Phrases::BLANKS)?;
        }
        print_marks(out, self.part(self.from, at), b' ', 0)?;
        print_marks(out, self.part(at, end), b'^', 1)?;
        end_line(out)
    }
}

// The line of a refusal's place, if there is something in it, and the marks.
pub fn print_line<W: Write>(
    out: &mut W,
    words: &[u8],
    document: &[u8],
    refused: Refused,
) -> io::Result<()> {
    let at = refused.position;
    let window = Window::around(document, at);
    if window.to <= window.from {
        return Ok(());
    }
    let bad = if refused.refusal == Refusal::Utf8 {
        at
    } else {
        document.len()
    };
    window.print_text(out, words, bad)?;
    window.print_under(out, words, at, token_length(document, refused))
}
