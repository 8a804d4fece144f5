// Runs of bytes of a set.
ghost use Rattle.std.specs.Prelude.{◌≡◌, ◌≤◌, ◌↔◌, IsTrue, length, drop};
ghost use Rattle.std.specs.List.{AllPass};
ghost use Rattle.token.specs.Regular.{in_ranges};
ghost use Rattle.characters.specs.Bytes.{hex};
ghost use Rattle.characters.specs.Runs.{hex_run, Span};

use crate::bytes::is_hex;
use crate::classes::Class;

// Whether all bytes are hexadecimal digits.
fn all_hex(s: &[u8]) -> bool
    ensures { IsTrue result ↔ AllPass (λ b. in_ranges b hex) s.now }
{
    s.iter().all(|b| is_hex(*b))
}

// Whether n hexadecimal digits stand there.
pub fn hexes(s: &[u8], at: usize, n: usize) -> bool
    requires { (at ≤ length s.now) × (n ≤ 8) }
    ensures { result ≡ hex_run n (drop at s.now) }
{
    match s[at..].get(..n) {
        Some(digits) => all_hex(digits),
        None => false,
    }
}

// The end of the bytes of the set there. A loop: `position` takes 7 % more instructions to cut labels, 8 % to cut numbers.
pub fn run<C: Class>(s: &[u8], at: usize) -> usize
    requires { at ≤ length s.now }
    ensures { Span C.set s.now at result }
{
    let mut i: usize = at;
    while i < s.len() {
        if !C::has(s[i]) {
            return i;
        }
        i += 1;
    }
    i
}
