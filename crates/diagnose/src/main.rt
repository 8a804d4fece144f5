// What is wrong with a TriG or Turtle file: for each file that the arguments name, its number of statements, or the refusal
// with line, column, place, number and meaning, the line with a mark under the token, and what the grammar expects there.
// The words trig, turtle and auto say how the files after them are read; auto, by the ending of the name, is the default.
// Where no file is named, and for the name -, standard input is read.
#![tactic(auto)]

mod marks;
mod phrases;
mod source;

ghost use Rattle.std.specs.Prelude.{◌≡◌, ◌↔◌, ◌≤◌, [], ◌∷◌, ◌++◌, if◌then◌else◌, nat_eq, IsTrue, OnOk, decimal, length, take};
ghost use Rattle.std.specs.Io.KnownBytes.{Appends, Keeps};
ghost use Rattle.limits.specs.Refusal.{number};
ghost use Rattle.documents.specs.Places.{place, within};
ghost use Rattle.diagnose.specs.Phrase.{phrase};
ghost use Rattle.diagnose.specs.Meaning.{meaning};

use documents::{Choice, Mode};
use limits::Refusal;
use phrases::{Phrases, say};
use reader::{Accepted, Refused};
use source::Source;
use std::env::FillError;
use std::io::{ErrorKind, Read, Write};
use std::rt::{Env, Files};
use std::{fs, io, str};
use token::Kind;

// What the arguments said so far: how files are read; whether a file was named; whether standard input was, which is read once.
#[derive(Clone, Copy)]
struct Said {
    choice: Choice,
    named: bool,
    spent: bool,
}

// What the reader is lent, apart as its interface takes it.
#[derive(Drop)]
struct Room<'a> {
    work: &'a mut [u8],
    rows: &'a mut [u32],
    terms: &'a mut [u32],
    store: &'a mut [u8],
}

impl<'a> Room<'a> {
    fn read(&mut self, document: &[u8], mode: Mode) -> Result<Accepted, Refused> {
        reader::read(
            document,
            &document[..0],
            u8::from(mode),
            self.work,
            self.rows,
            self.terms,
            self.store,
        )
    }

    // Whether the document may end at this place of the page.
    fn may_end(&mut self, page: &[u8], at: usize, mode: Mode) -> bool {
        match page.get(..at) {
            Some(document) => self.read(document, mode).is_ok(),
            None => false,
        }
    }

    // Whether a token of this kind is allowed there, where it is one of those that are told.
    fn allows(&mut self, page: &mut [u8], at: usize, kind: usize, mode: Mode) -> bool {
        phrases::is_told(kind)
            && diagnosis::is_allowed(
                page,
                at,
                kind,
                u8::from(mode),
                self.work,
                self.rows,
                self.terms,
                self.store,
            )
    }

    // What is expected at a place where the grammar refused. The page is written over from there on.
    fn expected(&mut self, page: &mut [u8], at: usize, mode: Mode) -> [bool; Phrases::FOUND] {
        let mut found = [false; Phrases::FOUND];
        found[Phrases::END] = self.may_end(page, at, mode);
        for kind in Kind::IRIREF..=Kind::LAST {
            found[kind] = self.allows(page, at, kind, mode);
        }
        if found[Phrases::NAME] {
            found[Phrases::PREFIX] = false;
        }
        found
    }
}

// The words file:line:column: refused number at place: meaning
fn print_refusal<W: Write>(
    out: &mut W,
    words: &[u8],
    name: &[u8],
    document: &[u8],
    refused: Refused,
) -> io::Result<()>
    ensures { let at = refused.position in let p = place document.now (within document.now at) in OnOk result (Appends (W.contents out.old) (W.contents out.new) (name.now ++ phrase words.now Phrases.COLON ++ decimal p.line ++ phrase words.now Phrases.COLON ++ decimal p.column ++ phrase words.now Phrases.REFUSED ++ decimal (number refused.refusal) ++ phrase words.now Phrases.AT ++ decimal at ++ phrase words.now Phrases.THEN ++ phrase words.now (meaning document.now (number refused.refusal) at) ++ 10 ∷ [])) }
{
    let at = refused.position;
    let p = documents::place_of(document, at);
    let line = p.line;
    let column = p.column;
    let number = u8::from(refused.refusal);
    out.write_all(name)?;
    say(out, words, Phrases::COLON)?;
    write!(out, "{line}")?;
    say(out, words, Phrases::COLON)?;
    write!(out, "{column}")?;
    say(out, words, Phrases::REFUSED)?;
    write!(out, "{number}")?;
    say(out, words, Phrases::AT)?;
    write!(out, "{at}")?;
    say(out, words, Phrases::THEN)?;
    say(out, words, phrases::meaning(document, refused))?;
    phrases::end_line(out)
}

// The word for so many statements.
fn statements(count: usize) -> usize
    ensures { result ≡ (if nat_eq count 1 then Phrases.STATEMENT else Phrases.STATEMENTS) }
{
    if count == 1 {
        return Phrases::STATEMENT;
    }
    Phrases::STATEMENTS
}

fn print_count<W: Write>(out: &mut W, words: &[u8], name: &[u8], count: usize) -> io::Result<()>
    ensures { OnOk result (Appends (W.contents out.old) (W.contents out.new) (name.now ++ phrase words.now Phrases.THEN ++ decimal count ++ phrase words.now (if nat_eq count 1 then Phrases.STATEMENT else Phrases.STATEMENTS) ++ 10 ∷ [])) }
{
    out.write_all(name)?;
    say(out, words, Phrases::THEN)?;
    write!(out, "{count}")?;
    say(out, words, statements(count))?;
    phrases::end_line(out)
}

// Reads the first n bytes of the page, and says what there is to say.
fn examine<W: Write>(
    out: &mut W,
    words: &[u8],
    name: &[u8],
    page: &mut [u8],
    n: usize,
    mode: Mode,
    room: &mut Room<'_>,
) -> io::Result<()> {
    if page.len() < n {
        return Ok(());
    }
    let refused = match room.read(&page[..n], mode) {
        Ok(read) => return print_count(out, words, name, read.rows),
        Err(refused) => refused,
    };
    print_refusal(out, words, name, &page[..n], refused)?;
    match refused.refusal {
        // These speak of no place.
        Refusal::DocumentLength | Refusal::Mode | Refusal::Base | Refusal::Work => Ok(()),
        Refusal::Grammar => {
            marks::print_line(out, words, &page[..n], refused)?;
            let found = room.expected(page, refused.position, mode);
            phrases::print_list(out, words, &found)
        }
        _ => marks::print_line(out, words, &page[..n], refused),
    }
}

// The arrays become slices here, where they are lent: beside the literals themselves the proof of that runs out of stack.
fn examine_with<W: Write>(
    out: &mut W,
    words: &[u8],
    name: &[u8],
    page: &mut [u8],
    n: usize,
    mode: Mode,
    work: &mut [u8; 822272],
    rows: &mut [u32; 327680],
    terms: &mut [u32; 327680],
    store: &mut [u8; 1048576],
) -> io::Result<()> {
    let mut room = Room {
        work,
        rows,
        terms,
        store,
    };
    examine(out, words, name, page, n, mode, &mut room)
}

// The tables: 65,536 statements and terms, an index of the terms, and a document's length of text.
fn examine_page<W: Write>(
    out: &mut W,
    words: &[u8],
    name: &[u8],
    page: &mut [u8],
    n: usize,
    mode: Mode,
) -> io::Result<()> {
    let mut work = [0u8; 822272];
    let mut rows = [0u32; 327680];
    let mut terms = [0u32; 327680];
    let mut store = [0u8; 1048576];
    examine_with(
        out, words, name, page, n, mode, &mut work, &mut rows, &mut terms, &mut store,
    )
}

// The same of the page.
fn examine_open_in<S: Read, W: Write>(
    out: &mut W,
    words: &[u8],
    name: &[u8],
    source: &mut S,
    mode: Mode,
    page: &mut [u8; 1048584],
) -> io::Result<()> {
    match input::read_full(source, page) {
        Ok(n) => examine_page(out, words, name, page, n, mode),
        Err(_) => print_unreadable(out, words, name),
    }
}

// The page: the longest document, and room for a sample after it.
fn examine_open<S: Read, W: Write>(
    out: &mut W,
    words: &[u8],
    name: &[u8],
    source: &mut S,
    mode: Mode,
) -> io::Result<()> {
    let mut page = [0u8; 1048584];
    examine_open_in(out, words, name, source, mode, &mut page)
}

// Whether a name stands for standard input.
fn is_dash(name: &[u8]) -> bool
    ensures { IsTrue result ↔ (name.now ≡ 45 ∷ []) }
{
    matches!(name, b"-")
}

// A file, opened; - is standard input, as long as it is not spent.
fn open<R: Files + Input>(
    rt: &R,
    name: &[u8],
    spent: bool,
) -> io::Result<Source<R::File, R::Reader>> {
    if is_dash(name) {
        if spent {
            return Err(io::Error::from(ErrorKind::UnexpectedEof));
        }
        return Ok(Source::Input(rt.reader()));
    }
    let Ok(path) = str::from_utf8(name) else {
        return Err(io::Error::from(ErrorKind::InvalidFilename));
    };
    Ok(Source::File(fs::open(rt, path)?))
}

// Whether it can be read at all, as a folder cannot: nothing is read.
fn is_readable<S: Read>(source: &mut S) -> bool
    ensures { Keeps (S.remaining source.old) (S.remaining source.new) }
{
    let mut nothing = [0u8; 1];
    source.read(&mut nothing[..0]).is_ok()
}

fn print_unreadable<W: Write>(out: &mut W, words: &[u8], name: &[u8]) -> io::Result<()>
    ensures { OnOk result (Appends (W.contents out.old) (W.contents out.new) (name.now ++ phrase words.now Phrases.UNREADABLE ++ 10 ∷ [])) }
{
    out.write_all(name)?;
    say(out, words, Phrases::UNREADABLE)?;
    phrases::end_line(out)
}

fn examine_file<R: Files + Input, W: Write>(
    rt: &R,
    out: &mut W,
    words: &[u8],
    name: &[u8],
    said: Said,
) -> io::Result<()> {
    let Ok(mut source) = open(rt, name, said.spent) else {
        return print_unreadable(out, words, name);
    };
    if !is_readable(&mut source) {
        return print_unreadable(out, words, name);
    }
    examine_open(out, words, name, &mut source, said.choice.mode(name))
}

// One argument: a word that says the mode, or a name.
fn argument<R: Files + Input, W: Write>(
    rt: &R,
    out: &mut W,
    words: &[u8],
    name: &[u8],
    said: Said,
) -> io::Result<Said> {
    if let Some(choice) = documents::mode_by_word(name) {
        return Ok(Said { choice, ..said });
    }
    examine_file(rt, out, words, name, said)?;
    Ok(Said {
        named: true,
        spent: said.spent || is_dash(name),
        ..said
    })
}

// How many arguments there are, with the program's name.
fn argument_count<R: Env>(rt: &R) -> usize {
    let mut nothing = [0u8; 1];
    for i in 0..usize::MAX {
        if let Err(FillError::NotPresent) = rt.arg(i, &mut nothing[..0]) {
            return i;
        }
    }
    usize::MAX
}

// Puts the name of standard input into the buffer.
fn put_dash(buffer: &mut [u8]) -> usize
    ensures bound { result ≤ length buffer.new }
    ensures prefix { result ≡ length (take result buffer.new) }
{
    if buffer.len() == 0 {
        return 0;
    }
    buffer[0] = b'-';
    1
}

// Puts the argument with a number into the buffer, and nothing where it is longer; behind the last, the name of standard input.
fn put_argument<R: Env>(rt: &R, i: usize, count: usize, buffer: &mut [u8]) -> usize
    ensures bound { result ≤ length buffer.new }
    ensures prefix { result ≡ length (take result buffer.new) }
{
    if i < count {
        return rt.arg(i, buffer).unwrap_or(0);
    }
    put_dash(buffer)
}

// The argument with a number. Standard input is read behind the last, if no file was named.
fn turn<R: Files + Input + Env, W: Write>(
    rt: &R,
    out: &mut W,
    words: &[u8],
    i: usize,
    count: usize,
    said: Said,
) -> io::Result<Said> {
    if count <= i && said.named {
        return Ok(said);
    }
    let mut buffer = [0u8; 4096];
    let n = put_argument(rt, i, count, &mut buffer);
    argument(rt, out, words, &buffer[..n], said)
}

fn run<R: Files + Input + Env, W: Write>(rt: &R, out: &mut W, words: &[u8]) -> io::Result<()> {
    let count = argument_count(rt);
    let mut said = Said {
        choice: Choice::ByName,
        named: false,
        spent: false,
    };
    for i in 1..=count {
        said = turn(rt, out, words, i, count, said)?;
    }
    Ok(())
}

fn main(rt: HostRuntime) -> io::Result<()> {
    run(
        &rt,
        &mut io::writer(&rt),
        b"\
\nan IRI\na prefix with its colon\na prefixed name\na blank node label\n'@prefix'\n'@base'\na language tag\n\
a number\n\n\na string\n\n'a'\n'true'\n'false'\n'PREFIX'\n'BASE'\n'GRAPH'\n\
'.'\n','\n';'\n'['\n']'\n'('\n')'\n'{'\n'}'\n'^^'\n\n\nthe end of the document\n\
the document has more than 1,048,576 bytes\n\n\n\n\
this is not UTF-8\n\
no token can be read here\n\
an escape in this token names no character\n\
the grammar does not allow this token here\n\
this prefix is not declared before\n\
this reference is relative, and no base is in force\n\
this IRI has more than 1,024 bytes, or this prefix more than 64\n\
this is the 33rd prefix, and there is room for 32\n\
64 brackets are open here already\n\
more statements than this program has room for\n\
more terms than this program has room for\n\
more text than this program has room for\n\
the document may not end here\n\
:\n: \n: refused \n at \n statement\n statements\n: cannot be read\n    \n    expected: \n, \n or \n...\n   \n\
no token can be read here: a string that is not closed, or with a bad escape\n\
no token can be read here: an IRI that is not closed, or with a character or an escape that it may not have\n\
no token can be read here: a word that is no keyword and no prefixed name\n\
",
    )
}
