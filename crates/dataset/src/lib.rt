// The byte that ends the prefix of a name.
#![tactic(auto)]

ghost use Rattle.std.specs.Prelude.{◌≡◌, true};
ghost use Rattle.text.specs.Text.{is};

pub fn prefix_end() -> u8
    ensures { is ":" result ≡ true }
{
    b':'
}
