// Resolves each line of standard input against the base of RFC 3986, section 5.4.
#![tactic(auto)]

use std::io;
use std::io::Write;

// Writes the reference resolved, and a line feed.
fn show<W: Write>(out: &mut W, reference: &[u8], buffer: &mut [u8]) -> io::Result<()> {
    let n = reference.len();
    if buffer.len() < n {
        return Ok(());
    }
    let start = buffer.len() - n;
    text::copy(reference, &mut buffer[start..]);
    let Ok(k) = iri::resolve(b"http://a/b/c/d;p?q", buffer, n) else {
        return Ok(());
    };
    if let Some(iri) = buffer.get(..k) {
        out.write_all(iri)?;
        out.write_all(b"\n")?;
    }
    Ok(())
}

fn show_lines<W: Write>(out: &mut W, s: &[u8], buffer: &mut [u8]) -> io::Result<()> {
    for line in s.split_inclusive(|b| *b == b'\n') {
        show(out, line.strip_suffix(b"\n").unwrap_or(line), buffer)?;
    }
    Ok(())
}

fn main(rt: HostRuntime) -> io::Result<()> {
    let mut input = [0u8; 4096];
    let mut buffer = [0u8; 256];
    let n = input::read_full(&mut rt.reader(), &mut input)?;
    show_lines(&mut io::writer(&rt), &input[..n], &mut buffer)
}
