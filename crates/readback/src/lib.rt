// The mode in which the long form is read again.
#![tactic(auto)]

ghost use Rattle.std.specs.Prelude.{◌≡◌};
ghost use Rattle.readback.specs.ReadBack.{long_form_mode};

pub fn long_form_mode() -> u8
    ensures { result ≡ long_form_mode }
{
    0
}
