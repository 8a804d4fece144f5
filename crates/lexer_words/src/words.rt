// Words that are compared with the text.
ghost use Rattle.std.specs.Prelude.{◌≡◌, ◌≤◌, length, drop};
ghost use Rattle.lexer_words.specs.Agree.{agreeing};

// How many bytes from `at` on agree with one of two words of one length.
pub fn agree<'a>(s: &'a [u8], at: usize, low: &'a [u8], up: &'a [u8]) -> usize
    requires { (at ≤ length s.now) × (length low.now ≡ length up.now) }
    ensures { result ≡ agreeing (drop at s.now) low.now up.now }
{
    let mut k: usize = 0;
    while k < low.len() {
        if s.len() - at <= k {
            return k;
        }
        let b = s[at + k];
        let agrees = (b == low[k]) | (b == up[k]);
        if !agrees {
            return k;
        }
        k += 1;
    }
    k
}
