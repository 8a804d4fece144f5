// The number of the refusal where the grammar fails.
#![tactic(auto)]

ghost use Rattle.std.specs.Prelude.{◌≡◌};
ghost use Rattle.completions.specs.FailsFirst.{grammar_refusal};

use limits::Refusal;

pub fn grammar_refusal() -> u8
    ensures { result ≡ grammar_refusal }
{
    u8::from(Refusal::Grammar)
}
