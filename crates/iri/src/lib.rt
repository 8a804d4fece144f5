// IRIs: which references have a scheme, and their resolution against a base (RFC 3986, section 5.2).
#![tactic(auto)]

ghost use Rattle.std.specs.Prelude.{◌≡◌, ◌++◌, true, false, not, ◌&&◌, ◌+◌, ◌-◌, ◌≤◌, ◌<◌, length, get_or, take, drop, replicate};
ghost use Rattle.text.specs.Text.{one_of, some_byte};
ghost use Rattle.text.specs.Slice.{over, over_at};
ghost use Rattle.escape.specs.Escape.{unescape};
ghost use Rattle.escape.specs.Code.{encoded, shown, size};
ghost use Rattle.iri.specs.Iri.{letter, scheme_byte, has_scheme, forbidden};
ghost use Rattle.iri.specs.Code.{verdict, before, stop, slash_end, window, rule, rule_by, segment, Judges, Moved, Turned, Removed};
ghost use Rattle.iri.specs.Code.{authority_length, ends_of, plan_by, plan_of, Holds, ResolvedAt, Resolved};

use escape::{Character, Escapes, Stretch, Stretches};

// The steps of RFC 3986, section 5.2.4, by what the rest of the path begins with.
#[derive(Clone, Copy, Debug, PartialEq, Eq)]
pub enum Rule {
    UpSlash, // 2A: "../"
    HereSlash, // 2A: "./"
    SlashHere, // 2B: "/./"
    SlashHereEnd, // 2B: "/."
    SlashUp, // 2C: "/../"
    SlashUpEnd, // 2C: "/.."
    Dots, // 2D: "." or ".."
    Segment, // 2E
}

// What a text is cut into, each up to the first byte that it cannot hold; Colon stands behind a scheme.
#[derive(Clone, Copy, Debug, PartialEq, Eq)]
pub enum Part {
    Authority,
    Path,
    Query,
    Scheme,
    Colon,
}

// Where the authority, the path and the query of a text end.
#[derive(Clone, Copy, Debug, PartialEq, Eq)]
pub struct Ends {
    pub authority: usize,
    pub path: usize,
    pub query: usize,
}

// What an IRI is made of before its dot segments go: so many bytes of the base, so many slashes, the reference. Its
// path starts at from; the reference's ends at path.
#[derive(Clone, Copy, Debug, PartialEq, Eq)]
pub struct Plan {
    pub keep: usize,
    pub slash: usize,
    pub from: usize,
    pub path: usize,
}

// Why a reference is not resolved: it is too long for the buffer before its dot segments go; it is relative, and there is no base.
#[derive(Clone, Copy, Debug, PartialEq, Eq)]
pub enum ResolveError {
    Long,
    NoBase,
}

// What is left of the path, from at to end, and how long the output is, after a turn of 5.2.4's loop.
#[derive(Clone, Copy, Debug, PartialEq, Eq)]
pub struct Turn {
    pub at: usize,
    pub end: usize,
    pub w: usize,
}

// The k-th byte from at, before the end; 0 past it.
fn peek(b: &[u8], at: usize, end: usize, k: usize) -> u8
    requires { (at ≤ end) × (end ≤ length b.now) }
    ensures { result ≡ get_or (window b.now at end) k 0 }
{
    if k < end - at {
        return b[at + k];
    }
    0
}

// The step for a path of n bytes that begins with these (0 past its end).
fn which(n: usize, c0: u8, c1: u8, c2: u8, c3: u8) -> Rule
    requires { n ≡ 1 → c1 ≡ 0 }
    ensures { result ≡ rule_by n c0 c1 c2 c3 }
{
    if c0 == 46 {
        if c1 == 47 {
            return Rule::HereSlash;
        }
        if c1 != 46 {
            if n == 1 {
                return Rule::Dots;
            }
            return Rule::Segment;
        }
        if c2 == 47 {
            return Rule::UpSlash;
        }
        if n == 2 {
            return Rule::Dots;
        }
        return Rule::Segment;
    }
    if c0 != 47 {
        return Rule::Segment;
    }
    if c1 != 46 {
        return Rule::Segment;
    }
    if c2 == 47 {
        return Rule::SlashHere;
    }
    if n == 2 {
        return Rule::SlashHereEnd;
    }
    if c2 != 46 {
        return Rule::Segment;
    }
    if c3 == 47 {
        return Rule::SlashUp;
    }
    if n == 3 {
        return Rule::SlashUpEnd;
    }
    Rule::Segment
}

// The step for what stands from at to the end.
fn next_rule(b: &[u8], at: usize, end: usize) -> Rule
    requires { (at ≤ end) × (end ≤ length b.now) }
    ensures { result ≡ rule (window b.now at end) }
{
    let c0 = peek(b, at, end, 0);
    let c1 = peek(b, at, end, 1);
    let c2 = peek(b, at, end, 2);
    let c3 = peek(b, at, end, 3);
    which(end - at, c0, c1, c2, c3)
}

// How many bytes there are up to the right-most slash, with it.
fn slash_end(s: &[u8]) -> usize
    ensures { result ≡ slash_end s.now (length s.now) }
{
    for n in (0..s.len()).rev() {
        if s[n] == b'/' {
            return n + 1;
        }
    }
    0
}

// The output's first w bytes without their last segment: how many stay.
fn cut(b: &[u8], w: usize) -> usize
    requires { w ≤ length b.now }
    ensures { result ≡ slash_end b.now w - 1 }
{
    slash_end(&b[..w]).saturating_sub(1)
}

// The first segment of what stands from at to the end goes to w; its length.
fn shift(b: &mut [u8], at: usize, end: usize, w: usize) -> usize
    requires { (w ≤ at) × ((at < end) × (end ≤ length b.old)) }
    ensures { (result ≡ segment (window b.old at end)) × Moved b.old b.new at w result }
{
    let mut n: usize = 0;
    while at + n < end {
        let c = b[at + n];
        if c == 47 {
            if 0 < n {
                return n;
            }
        }
        b[w + n] = c;
        n += 1;
    }
    n
}

// One turn of 5.2.4's loop.
fn take_turn(b: &mut [u8], at: usize, end: usize, w: usize) -> Turn
    requires { (w ≤ at) × ((at < end) × (end ≤ length b.old)) }
    ensures { Turned b.old b.new at end w result }
{
    let r = next_rule(b, at, end);
    match r {
        Rule::UpSlash => Turn {
            at: at + 3,
            end: end,
            w: w,
        },
        Rule::HereSlash => Turn {
            at: at + 2,
            end: end,
            w: w,
        },
        Rule::SlashHere => Turn {
            at: at + 2,
            end: end,
            w: w,
        },
        Rule::SlashHereEnd => Turn {
            at: at,
            end: at + 1,
            w: w,
        },
        Rule::SlashUp => Turn {
            at: at + 3,
            end: end,
            w: cut(b, w),
        },
        Rule::SlashUpEnd => Turn {
            at: at,
            end: at + 1,
            w: cut(b, w),
        },
        Rule::Dots => Turn {
            at: end,
            end: end,
            w: w,
        },
        Rule::Segment => {
            let n = shift(b, at, end, w);
            Turn {
                at: at + n,
                end: end,
                w: w + n,
            }
        }
    }
}

// RFC 3986, section 5.2.4, in place: the path is the first n bytes; the new length. "Dot segments go one at a time from the front
// of what remains".
fn remove_dots(path: &mut [u8], n: usize) -> usize
    requires { n ≤ length path.old }
    ensures { Removed path.old path.new n result }
{
    let mut t = Turn {
        at: 0,
        end: n,
        w: 0,
    };
    while t.at < t.end {
        t = take_turn(path, t.at, t.end, t.w);
    }
    t.w
}

// Whether the byte is a letter.
fn is_letter(c: u8) -> bool
    ensures { result ≡ letter c }
{
    match c {
        b'A'..=b'Z' | b'a'..=b'z' => true,
        _ => false,
    }
}

// Whether a scheme can hold the byte.
fn is_scheme_byte(c: u8) -> bool
    ensures { result ≡ scheme_byte c }
{
    // Most are letters: one match of all took 6 instructions a byte more.
    if is_letter(c) {
        return true;
    }
    match c {
        b'0'..=b'9' | b'+' | b'-' | b'.' => true,
        _ => false,
    }
}

fn ends_path(c: u8) -> bool
    ensures { result ≡ one_of "?#" c }
{
    match c {
        b'?' | b'#' => true,
        _ => false,
    }
}

fn ends_authority(c: u8) -> bool
    ensures { result ≡ one_of "/?#" c }
{
    match c {
        b'/' | b'?' | b'#' => true,
        _ => false,
    }
}

// Whether the byte ends the part.
fn stops(part: Part, c: u8) -> bool
    ensures { result ≡ stop part c }
{
    match part {
        Part::Authority => ends_authority(c),
        Part::Path => ends_path(c),
        Part::Query => c == 35,
        Part::Scheme => !is_scheme_byte(c),
        Part::Colon => c == 58,
    }
}

// The first place from start on that ends the part; the length where there is none.
fn find(s: &[u8], start: usize, part: Part) -> usize
    requires { start ≤ length s.now }
    ensures { result ≡ start + before (stop part) (drop start s.now) }
{
    for i in start..s.len() {
        if stops(part, s[i]) {
            return i;
        }
    }
    s.len()
}

// Whether the text has a scheme: "letter, then letters, digits, + - . up to a colon".
pub fn has_scheme(s: &[u8]) -> bool
    ensures { result ≡ has_scheme s.now }
{
    if s.len() == 0 {
        return false;
    }
    if !is_letter(s[0]) {
        return false;
    }
    let n = find(s, 0, Part::Scheme);
    if s.len() <= n {
        return false;
    }
    s[n] == 58
}

// What a byte says of a scheme, at its first place and later: whether there is one, or nothing yet.
fn judge(first: bool, c: u8) -> Option<bool>
    ensures { result ≡ verdict first c }
{
    if first {
        return if is_letter(c) { None } else { Some(false) };
    }
    if is_scheme_byte(c) {
        return None;
    }
    Some(c == b':')
}

// The same of the bytes of a text that is not empty.
fn judge_run(first: bool, s: &[u8]) -> Option<bool>
    requires { 0 < length s.now }
    ensures { Judges first s.now result }
{
    let mut start = first;
    for c in s {
        let verdict = judge(start, *c);
        if verdict.is_some() {
            return verdict;
        }
        start = false;
    }
    None
}

// The same of an escape: a scheme has none of the bytes of a longer character.
fn judge_escape(first: bool, c: Character) -> Option<bool>
    requires { 0 < c.width }
    ensures { Judges first (encoded c) result }
{
    if 1 < c.width || 255 < c.value {
        return Some(false);
    }
    judge(first, c.value as u8)
}

// The same of a part of an escaped text.
fn judge_part(first: bool, part: Stretch) -> Option<bool>
    requires { 0 < size part }
    ensures { Judges first (shown part.entry) result }
{
    match part {
        Stretch::Run(run) => judge_run(first, run),
        Stretch::One(c) => judge_escape(first, c),
    }
}

// Whether a reference has a scheme when its escapes are undone.
pub fn has_scheme_unescaped(s: &[u8]) -> bool
    ensures { result ≡ has_scheme (unescape s.now) }
{
    let mut first = true;
    for part in (Stretches {
        escapes: Escapes::Quoted,
        rest: s,
    }) {
        if let Some(known) = judge_part(first, part) {
            return known;
        }
        first = false;
    }
    false
}

// Where the authority ends of a text that begins at start.
fn authority_end(s: &[u8], start: usize) -> usize
    requires { start ≤ length s.now }
    ensures { result ≡ start + authority_length (drop start s.now) }
{
    if s.len() - start < 2 {
        return start;
    }
    if s[start] != 47 {
        return start;
    }
    if s[start + 1] != 47 {
        return start;
    }
    find(s, start + 2, Part::Authority)
}

// Where the parts end of a text that begins at start.
fn part_ends(s: &[u8], start: usize) -> Ends
    requires { start ≤ length s.now }
    ensures { result ≡ ends_of s.now start }
{
    let a = authority_end(s, start);
    let p = find(s, a, Part::Path);
    let q = find(s, p, Part::Query);
    Ends {
        authority: a,
        path: p,
        query: q,
    }
}

// The plan, from where the parts end; the base's scheme ends at k.
fn choose(base: &[u8], reference: &[u8], k: usize, b: Ends, r: Ends) -> Plan
    requires { ((k ≤ length base.now) × (b.path ≤ length base.now)) × ((r.authority ≤ length reference.now) × (r.path ≤ length reference.now)) }
    ensures { result ≡ plan_by base.now reference.now k b r }
{
    let ba = b.authority;
    let bp = b.path;
    let bq = b.query;
    let ra = r.authority;
    let rp = r.path;
    let rq = r.query;
    if 0 < ra {
        return Plan {
            keep: k,
            slash: 0,
            from: k + ra,
            path: rp,
        };
    }
    if rp == 0 {
        if rq == 0 {
            return Plan {
                keep: bq,
                slash: 0,
                from: bq,
                path: 0,
            };
        }
        return Plan {
            keep: bp,
            slash: 0,
            from: bp,
            path: 0,
        };
    }
    if reference[0] == 47 {
        return Plan {
            keep: ba,
            slash: 0,
            from: ba,
            path: rp,
        };
    }
    if ba < bp {
        let m = slash_end(&base[ba..bp]);
        return Plan {
            keep: ba + m,
            slash: 0,
            from: ba,
            path: rp,
        };
    }
    if k < ba {
        return Plan {
            keep: ba,
            slash: 1,
            from: ba,
            path: rp,
        };
    }
    Plan {
        keep: ba,
        slash: 0,
        from: ba,
        path: rp,
    }
}

// The plan of a reference and a base that has a scheme.
fn make_plan(base: &[u8], reference: &[u8]) -> Plan
    requires { before (stop Part.Colon) base.now < length base.now }
    ensures { result ≡ plan_of base.now reference.now }
{
    let k = find(base, 0, Part::Colon) + 1;
    let b = part_ends(base, k);
    let r = part_ends(reference, 0);
    choose(base, reference, k, b, r)
}

// Writes a slash, or none, at a place.
fn put_slash(out: &mut [u8], at: usize, n: usize)
    requires { (n ≤ 1) × (at + n ≤ length out.old) }
    ensures { out.new ≡ over_at at (replicate n 47) out.old }
{
    if n == 1 {
        out[at] = 47;
    }
}

// n bytes from start go to a place that is not behind it.
fn move_left(out: &mut [u8], start: usize, n: usize, to: usize)
    requires { (to ≤ start) × (start + n ≤ length out.old) }
    ensures { out.new ≡ over_at to (take n (drop start out.old)) out.old }
{
    for i in 0..n {
        out[to + i] = out[start + i];
    }
}

// Writes the part of the base, the slash and the path of the reference, which begins at start.
fn put_front(base: &[u8], out: &mut [u8], start: usize, p: Plan)
    requires { ((p.keep ≤ length base.now) × (p.slash ≤ 1)) × ((p.keep + p.slash ≤ start) × (start + p.path ≤ length out.old)) }
    ensures { out.new ≡ over (take p.keep base.now ++ (replicate p.slash 47 ++ take p.path (drop start out.old))) out.old }
{
    let keep = p.keep;
    let slash = p.slash;
    let path = p.path;
    text::copy(&base[..keep], out);
    put_slash(out, keep, slash);
    move_left(out, start, path, keep + slash);
}

// Writes the IRI by the plan of the reference that begins at start; its length.
fn put_resolved(base: &[u8], out: &mut [u8], start: usize, p: Plan) -> usize
    requires { (((before (stop Part.Colon) base.now < length base.now) × (start ≤ length out.old)) × (p ≡ plan_of base.now (drop start out.old))) × (p.keep + p.slash ≤ start) }
    ensures { Holds base.now (drop start out.old) out.old out.new result }
{
    let from = p.from;
    let path = p.path;
    let end = p.keep + p.slash + path;
    put_front(base, out, start, p);
    let m = remove_dots(&mut out[from..], end - from);
    let n = out.len() - start - path;
    move_left(out, start + path, n, from + m);
    from + m + n
}

// Resolves the reference without a scheme that begins at start, against a base with one, into the front of the buffer.
fn resolve_at(base: &[u8], buffer: &mut [u8], start: usize) -> Result<usize, ResolveError>
    requires { (before (stop Part.Colon) base.now < length base.now) × (start ≤ length buffer.old) }
    ensures { ResolvedAt base.now buffer.old buffer.new start result }
{
    let p = make_plan(base, &buffer[start..]);
    let keep = p.keep;
    let slash = p.slash;
    if start < keep {
        return Err(ResolveError::Long);
    }
    if start - keep < slash {
        return Err(ResolveError::Long);
    }
    Ok(put_resolved(base, buffer, start, p))
}

// Resolves the reference that is the buffer's last n bytes, its escapes undone, into the front of the buffer, which
// bounds it before its dot segments go. What stands behind the result is not told.
pub fn resolve(base: &[u8], buffer: &mut [u8], n: usize) -> Result<usize, ResolveError>
    ensures { Resolved base.now buffer.old buffer.new n result }
{
    if buffer.len() < n {
        return Err(ResolveError::Long);
    }
    let start = buffer.len() - n;
    if has_scheme(&buffer[start..]) {
        move_left(buffer, start, n, 0);
        return Ok(n);
    }
    if has_scheme(base) {
        return resolve_at(base, buffer, start);
    }
    Err(ResolveError::NoBase)
}

// Whether an IRIREF forbids the byte unescaped.
fn is_forbidden(c: u8) -> bool
    ensures { result ≡ forbidden c }
{
    match c {
        ..=0x20 | b'<' | b'>' | b'"' | b'{' | b'}' | b'|' | b'^' | b'`' | b'\\' => true,
        _ => false,
    }
}

// Whether the text holds a byte that an IRIREF forbids unescaped.
fn holds_forbidden(s: &[u8]) -> bool
    ensures { result ≡ some_byte forbidden s.now }
{
    for c in s {
        if is_forbidden(*c) {
            return true;
        }
    }
    false
}

// Whether a lent base is no refusal, but for its length and its being UTF-8.
pub fn is_base(s: &[u8]) -> bool
    ensures { result ≡ (has_scheme s.now && not (some_byte forbidden s.now)) }
{
    if has_scheme(s) {
        return !holds_forbidden(s);
    }
    false
}
