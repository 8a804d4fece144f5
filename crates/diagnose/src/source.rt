// Where a document comes from: a file, or standard input.
use std::io;
use std::io::Read;

#[derive(Drop)]
pub enum Source<F: Read + Drop, I: Read + Drop> {
    File(F),
    Input(I),
}

impl<F: Read + Drop, I: Read + Drop> Read for Source<F, I> {
    fn read(&mut self, buf: &mut [u8]) -> io::Result<usize> {
        match self {
            Source::File(file) => file.read(buf),
            Source::Input(input) => input.read(buf),
        }
    }
}
