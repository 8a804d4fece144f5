// Texts: comparing, their order, copying, and searches that test a block of bytes at a time.
#![tactic(auto)]

ghost use Rattle.std.specs.Prelude.{◌≡◌, ℕ, Bool, ◌+◌, ◌≤◌, ◌<◌, length, drop};
ghost use Rattle.text.specs.Text.{same_text, begins, some_byte};
ghost use Rattle.text.specs.Order.{smaller};
ghost use Rattle.text.specs.Slice.{over};
ghost use Rattle.text.specs.Words.{four_at, eight_at};
ghost use Rattle.text.specs.Runs.{Answers, byte, four, high, free, next_at};

// A byte as a number.
pub fn wide(b: u8) -> usize
    ensures { (result ≡ b) × (result < 256) }
{
    usize::from(b)
}

// Four bytes as a number.
pub fn four(s: &[u8], at: usize) -> usize
    requires { at + 4 ≤ length s.now }
    ensures { (result ≡ four_at s.now at) × (result < 4294967296) }
{
    u32::from_le_bytes([s[at], s[at + 1], s[at + 2], s[at + 3]]) as usize
}

// Eight bytes as a number.
fn eight(s: &[u8], at: usize) -> usize
    requires { at + 8 ≤ length s.now }
    ensures { result ≡ eight_at s.now at }
{
    four(s, at) + 4294967296 * four(s, at + 4)
}

// Whether two texts are the same. Eight bytes at a time: `==` alone takes 66 ms for 36 (500 terms without the index, bench/terms.sh).
pub fn same(s: &[u8], t: &[u8]) -> bool
    ensures { result ≡ same_text s.now t.now }
{
    let n = s.len();
    if n != t.len() {
        return false;
    }
    if n < 4 {
        return *s == *t;
    }
    if n < 8 {
        return four(s, 0) == four(t, 0) && four(s, n - 4) == four(t, n - 4);
    }
    for i in (0..n - 8).step_by(8) {
        if eight(s, i) != eight(t, i) {
            return false;
        }
    }
    eight(s, n - 8) == eight(t, n - 8)
}

// Whether the second text begins with the first.
pub fn begins(s: &[u8], t: &[u8]) -> bool
    ensures { result ≡ begins s.now t.now }
{
    t.starts_with(s)
}

// Whether a text comes before another in the order of their bytes, from a place on.
fn smaller_from(s: &[u8], t: &[u8], at: usize) -> bool
    requires { at ≤ length s.now }
    ensures { result ≡ smaller (drop at s.now) (drop at t.now) }
{
    let mut i = at;
    while i < s.len() {
        if t.len() <= i {
            return false;
        }
        if s[i] < t[i] {
            return true;
        }
        if t[i] < s[i] {
            return false;
        }
        i += 1;
    }
    i < t.len()
}

// Texts of so many bytes are long, and their first bytes are compared by eights before longer runs are.
const LONG: usize = 256;

const NEAR: usize = 64;

// The same of long texts from their front on: texts that differ do so early as a rule, and where they do not the library's longer runs are
// the faster.
#[inline(never)]
fn smaller_long(s: &[u8], t: &[u8]) -> bool
    requires { (256 ≤ length s.now) × (256 ≤ length t.now) }
    ensures { result ≡ smaller s.now t.now }
{
    let mut i: usize = 0;
    while 8 <= NEAR - i {
        if eight(s, i) != eight(t, i) {
            return smaller_from(s, t, i);
        }
        i += 8;
    }
    s[i..].cmp(&t[i..]).is_lt()
}

// Whether a text comes before another in the order of their bytes: eight at a time, as far as they are the same. (`cmp` alone takes a third
// more instructions over texts of 64 to 200 bytes that differ early.)
pub fn smaller(s: &[u8], t: &[u8]) -> bool
    ensures { result ≡ smaller s.now t.now }
{
    let n = s.len().min(t.len());
    if LONG <= n {
        return smaller_long(s, t);
    }
    let mut i: usize = 0;
    while 8 <= n - i {
        if eight(s, i) != eight(t, i) {
            return smaller_from(s, t, i);
        }
        i += 8;
    }
    smaller_from(s, t, i)
}

// Writes the text over the front of a slice, as far as it goes. Not inlined, for where the two are known to lie apart the compiler makes
// a call of C's memcpy of it, which the archive would need from outside.
#[inline(never)]
pub fn copy(s: &[u8], out: &mut [u8])
    ensures { out.new ≡ over s.now out.old }
{
    for (i, b) in s.iter().enumerate() {
        if out.len() <= i {
            return;
        }
        out[i] = *b;
    }
}

// Whether the byte stands in the text.
pub fn has(s: &[u8], q: u8) -> bool
    ensures { result ≡ some_byte (byte q) s.now }
{
    s.contains(&q)
}

// Whether none of the N bytes from a place on passes the test. With no branch, so that the compiler makes vector code of it.
fn none_of<const N: usize, F: Fn(u8) -> bool>(s: &[u8], at: usize, test: &F) -> bool
    requires bound { at + N ≤ length s.now }
    requires callable { F.IsAlwaysCallable test.now }
    ensures { (p : ℕ → Bool) → Answers (F.post test.now) p → result ≡ free p s.now at N }
{
    let mut none = true;
    for k in 0..N {
        none &= !test(s[at + k]);
    }
    none
}

// The place of the next byte from a place on that passes the test, or the end: byte by byte.
fn next_near<F: Fn(u8) -> bool>(s: &[u8], at: usize, test: F) -> usize
    requires place { at ≤ length s.now }
    requires callable { F.IsAlwaysCallable test }
    ensures next { (p : ℕ → Bool) → Answers (F.post test) p → result ≡ next_at p s.now at }
    ensures within { (at ≤ result) × (result ≤ length s.now) }
{
    for i in at..s.len() {
        if test(s[i]) {
            return i;
        }
    }
    s.len()
}

// The same, N bytes at a time as far as none of them passes. A `while` with its own `if`: as one test, `next_high` takes 1171
// instructions for 490 at 1000 bytes.
pub fn next_where<const N: usize, F: Fn(u8) -> bool>(s: &[u8], at: usize, test: F) -> usize
    requires size { 0 < N }
    requires place { at ≤ length s.now }
    requires callable { F.IsAlwaysCallable test }
    ensures next { (p : ℕ → Bool) → Answers (F.post test) p → result ≡ next_at p s.now at }
    ensures within { (at ≤ result) × (result ≤ length s.now) }
{
    let mut i = at;
    while N <= s.len() - i {
        if !none_of::<N, F>(s, i, &test) {
            return next_near(s, i, test);
        }
        i += N;
    }
    next_near(s, i, test)
}

// The place of the next byte q, from a place on, or the end.
pub fn next(s: &[u8], at: usize, q: u8) -> usize
    requires { at ≤ length s.now }
    ensures { (result ≡ next_at (byte q) s.now at) × ((at ≤ result) × (result ≤ length s.now)) }
{
    next_where::<16, _>(s, at, |c| c == q)
}

// The place of the next byte that is no ASCII character, or the end.
pub fn next_high(s: &[u8], at: usize) -> usize
    requires { at ≤ length s.now }
    ensures { (result ≡ next_at high s.now at) × ((at ≤ result) × (result ≤ length s.now)) }
{
    next_where::<16, _>(s, at, |c| 128 <= c)
}

// The place of the next byte that is one of four, or the end.
pub fn next_of_four(s: &[u8], at: usize, a: u8, b: u8, x: u8, y: u8) -> usize
    requires { at ≤ length s.now }
    ensures { (result ≡ next_at (four a b x y) s.now at) × ((at ≤ result) × (result ≤ length s.now)) }
{
    next_where::<8, _>(s, at, |c| ((c == a) | (c == b)) | ((c == x) | (c == y)))
}
