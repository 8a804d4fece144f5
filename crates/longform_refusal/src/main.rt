// The program longform on a document that is refused.
#![tactic(auto)]

use std::io;

fn main(rt: HostRuntime) -> io::Result<()> {
    printing::print_long_form(&mut rt.reader(), &mut io::writer(&rt))
}
