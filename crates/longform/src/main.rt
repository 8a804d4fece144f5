// The long form of the TriG document on standard input; its stored output is that of the scope's worked example.
#![tactic(auto)]

use std::io;

fn main(rt: HostRuntime) -> io::Result<()> {
    printing::print_long_form(&mut rt.reader(), &mut io::writer(&rt))
}
