// The words of rows and of terms that the examples lend where they lend enough.
#![tactic(auto)]

ghost use Rattle.std.specs.Prelude.{◌≡◌};
ghost use Rattle.examples.specs.Call.{ample_words};

pub fn ample_words() -> usize
    ensures { result ≡ ample_words }
{
    100000
}
