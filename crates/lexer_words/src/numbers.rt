// Numbers. Each routine goes on where the part before it has been read.
ghost use Rattle.std.specs.Prelude.{Some, None, ◌+◌, ◌<◌};
ghost use Rattle.token.specs.Kind.{kind_code, INTEGER, DECIMAL, DOUBLE, dot};
ghost use Rattle.automaton.specs.States.{after_sign, in_integer, integer_dot, after_dot, in_fraction, after_e, in_exponent};
ghost use Rattle.automaton.specs.Run.{tok, At, TokenAt};

use automaton::Token;
use characters::bytes::{is_digit, is_exponent, is_sign};
use characters::classes::Digit;
use characters::runs::run;
use token::Kind;

// EXPONENT ::= [eE] [+-]? [0-9]+, after its first digit
fn exponent_digits(s: &[u8], at: usize) -> Token
    requires { At s.now in_exponent at (Some (tok (kind_code DOUBLE) at)) }
    ensures { TokenAt s.now (Some result) }
{
    let i = run::<Digit>(s, at);
    Token {
        kind: Kind::DOUBLE,
        len: i,
    }
}

// After the e. Where no digits come, the number is the one before it.
fn exponent(s: &[u8], at: usize, before: Token) -> Token
    requires { At s.now after_e at (Some before) }
    ensures { TokenAt s.now (Some result) }
{
    if s.len() <= at {
        return before;
    }
    let b = s[at];
    if is_digit(b) {
        return exponent_digits(s, at + 1);
    }
    if !is_sign(b) {
        return before;
    }
    if s.len() - at <= 1 {
        return before;
    }
    if is_digit(s[at + 1]) {
        return exponent_digits(s, at + 2);
    }
    before
}

// DECIMAL ::= [+-]? ([0-9]* '.' [0-9]+), after the first digit behind the dot
fn fraction(s: &[u8], at: usize) -> Token
    requires { At s.now in_fraction at (Some (tok (kind_code DECIMAL) at)) }
    ensures { TokenAt s.now (Some result) }
{
    let i = run::<Digit>(s, at);
    let decimal = Token {
        kind: Kind::DECIMAL,
        len: i,
    };
    if i < s.len() {
        if is_exponent(s[i]) {
            return exponent(s, i + 1, decimal);
        }
    }
    decimal
}

// After an integer and a dot at `at`, which is of the number where a digit or an exponent follows.
fn point(s: &[u8], at: usize) -> Token
    requires { At s.now integer_dot (at + 1) (Some (tok (kind_code INTEGER) at)) }
    ensures { TokenAt s.now (Some result) }
{
    let integer = Token {
        kind: Kind::INTEGER,
        len: at,
    };
    if s.len() - at <= 1 {
        return integer;
    }
    let b = s[at + 1];
    if is_digit(b) {
        return fraction(s, at + 2);
    }
    if is_exponent(b) {
        return exponent(s, at + 2, integer);
    }
    integer
}

// INTEGER ::= [+-]? [0-9]+, after its first digit
// DOUBLE ::= [+-]? ([0-9]+ '.' [0-9]* EXPONENT | '.' [0-9]+ EXPONENT | [0-9]+ EXPONENT)
pub fn integer(s: &[u8], at: usize) -> Token
    requires { At s.now in_integer at (Some (tok (kind_code INTEGER) at)) }
    ensures { TokenAt s.now (Some result) }
{
    let i = run::<Digit>(s, at);
    let integer = Token {
        kind: Kind::INTEGER,
        len: i,
    };
    if s.len() <= i {
        return integer;
    }
    let b = s[i];
    if b == b'.' {
        return point(s, i);
    }
    if is_exponent(b) {
        return exponent(s, i + 1, integer);
    }
    integer
}

// A dot, or a number that begins with one.
pub fn dot(s: &[u8]) -> Token
    requires { At s.now after_dot 1 (Some (tok (kind_code dot) 1)) }
    ensures { TokenAt s.now (Some result) }
{
    if 1 < s.len() {
        if is_digit(s[1]) {
            return fraction(s, 2);
        }
    }
    Token {
        kind: Kind::DOT,
        len: 1,
    }
}

// A number after its sign.
pub fn signed(s: &[u8]) -> Option<Token>
    requires { At s.now after_sign 1 None }
    ensures { TokenAt s.now result }
{
    if s.len() <= 1 {
        return None;
    }
    let b = s[1];
    if is_digit(b) {
        return Some(integer(s, 2));
    }
    if b != b'.' {
        return None;
    }
    if s.len() <= 2 {
        return None;
    }
    if is_digit(s[2]) {
        return Some(fraction(s, 3));
    }
    None
}
