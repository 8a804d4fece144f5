// The modes: TriG and Turtle.
#![tactic(auto)]

ghost use Rattle.std.specs.Prelude.{◌≡◌, leb};

#[derive(Drop)]
pub struct Mode {}

impl Mode {
    pub const TRIG: u8 = 0;

    pub const TURTLE: u8 = 1;

    // Whether the number is a mode's.
    pub fn is_known(mode: u8) -> bool
        ensures { result ≡ leb mode 1 }
    {
        mode <= Mode::TURTLE
    }
}
