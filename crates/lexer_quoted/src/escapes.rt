// Escapes, after their backslash.
ghost use Rattle.std.specs.Prelude.{◌≡◌, ◌≤◌, length, drop};
ghost use Rattle.lexer_quoted.specs.Escapes.{uchar_size, escape_size};

use characters::bytes::is_echar;
use characters::runs::hexes;

// UCHAR ::= '\u' HEX HEX HEX HEX | '\U' HEX HEX HEX HEX HEX HEX HEX HEX
// The length of its part after the backslash.
pub fn uchar(s: &[u8], at: usize) -> Option<usize>
    requires { at ≤ length s.now }
    ensures { result ≡ uchar_size (drop at s.now) }
{
    match *s.get(at)? {
        b'u' => hexes(s, at + 1, 4).then_some(5),
        b'U' => hexes(s, at + 1, 8).then_some(9),
        _ => None,
    }
}

// ECHAR ::= '\' [tbnrf"'\]
// The length of the part of ECHAR or UCHAR after the backslash.
pub fn escape(s: &[u8], at: usize) -> Option<usize>
    requires { at ≤ length s.now }
    ensures { result ≡ escape_size (drop at s.now) }
{
    if is_echar(*s.get(at)?) {
        return Some(1);
    }
    uchar(s, at)
}
