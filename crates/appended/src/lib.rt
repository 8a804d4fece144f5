// The byte behind which a text may be added to a document.
#![tactic(auto)]

ghost use Rattle.std.specs.Prelude.{◌≡◌};
ghost use Rattle.appended.specs.Appended.{line_feed};

pub fn line_feed() -> u8
    ensures { result ≡ line_feed }
{
    10
}
