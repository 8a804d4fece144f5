// The number of an accepted call.
#![tactic(auto)]

ghost use Rattle.std.specs.Prelude.{◌≡◌};
ghost use Rattle.calls.specs.Calls.{accepted};

pub fn accepted() -> u8
    ensures { result ≡ accepted }
{
    0
}
