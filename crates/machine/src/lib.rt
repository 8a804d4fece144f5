// Which numbers are answers of the reader and the writer.
#![tactic(auto)]

ghost use Rattle.std.specs.Prelude.{◌≡◌, leb};

use limits::Refusal;

pub fn is_answer(number: u8) -> bool
    ensures { result ≡ leb number 18 }
{
    number <= u8::from(Refusal::Tables)
}
