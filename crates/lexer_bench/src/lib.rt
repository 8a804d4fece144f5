// What the measuring program in bench/ calls.
#![tactic(auto)]

ghost use Rattle.std.specs.Prelude.{◌≡◌, ◌≤◌, length};
ghost use Rattle.lexer_bench.specs.Front.{valid_size};

// How many tokens a text has up to its end, or to the first place where none can be read.
#[unsafe(no_mangle)]
pub extern "C" fn bench_tokens(s: &[u8]) -> usize
    ensures { result ≤ length s.now }
{
    let mut at: usize = 0;
    let mut clear: usize = 0;
    let mut count: usize = 0;
    while at < s.len() {
        let b = lexer::skip_blanks(&s[at..]);
        let start = at + b;
        let Some(next) = lexer::next_token(&s[start..], clear.saturating_sub(b)) else {
            break;
        };
        let n = next.token.len;
        // Of bytes that are no UTF-8, `NextAt` doesn't say that a token has some.
        if n == 0 {
            break;
        }
        at = start + n;
        clear = next.clear;
        count += 1;
    }
    count
}

// How many bytes a text has up to its first bad sequence.
#[unsafe(no_mangle)]
pub extern "C" fn bench_utf8(s: &[u8]) -> usize
    ensures { result ≡ valid_size s.now }
{
    utf8::first_bad(s).unwrap_or(s.len())
}
