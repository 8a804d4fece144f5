// Whether a byte below 128 is of a set of the terminals. The larger sets are bits of two numbers, which the compiler tests at once.
ghost use Rattle.std.specs.Prelude.{◌≡◌};
ghost use Rattle.token.specs.Regular.{in_ranges};
ghost use Rattle.characters.specs.Bytes.{digit, letter, letter_or_digit, hex, sign, exponent, name, local, local_first, label_first, reserved, iri, echar, bit_at};

// Whether the bit of a byte below 128 is set: LOW has those below 64, HIGH the others.
fn in_bits<const LOW: usize, const HIGH: usize>(b: u8) -> bool
    ensures { result ≡ bit_at LOW HIGH b }
{
    let k = usize::from(b);
    if k < 64 {
        return (LOW >> k) % 2 == 1;
    }
    if k < 128 {
        return (HIGH >> (k - 64)) % 2 == 1;
    }
    false
}

// [0-9]
pub fn is_digit(b: u8) -> bool
    ensures { result ≡ in_ranges b digit }
{
    b.is_ascii_digit()
}

// [A-Z] | [a-z]
pub fn is_letter(b: u8) -> bool
    ensures { result ≡ in_ranges b letter }
{
    b.is_ascii_alphabetic()
}

// [0-9] | [A-Z] | [a-z]
pub fn is_letter_or_digit(b: u8) -> bool
    ensures { result ≡ in_ranges b letter_or_digit }
{
    in_bits::<0x03FF000000000000, 0x07FFFFFE07FFFFFE>(b)
}

// HEX ::= [0-9] | [A-F] | [a-f]
pub fn is_hex(b: u8) -> bool
    ensures { result ≡ in_ranges b hex }
{
    b.is_ascii_hexdigit()
}

// [+-]
pub fn is_sign(b: u8) -> bool
    ensures { result ≡ in_ranges b sign }
{
    matches!(b, b'+' | b'-')
}

// [eE]
pub fn is_exponent(b: u8) -> bool
    ensures { result ≡ in_ranges b exponent }
{
    matches!(b, b'E' | b'e')
}

// PN_CHARS below 128
pub fn is_name(b: u8) -> bool
    ensures { result ≡ in_ranges b name }
{
    in_bits::<0x03FF200000000000, 0x07FFFFFE87FFFFFE>(b)
}

// PN_CHARS | ':' below 128
pub fn is_local(b: u8) -> bool
    ensures { result ≡ in_ranges b local }
{
    in_bits::<0x07FF200000000000, 0x07FFFFFE87FFFFFE>(b)
}

// PN_CHARS_U | ':' | [0-9] below 128
pub fn is_local_first(b: u8) -> bool
    ensures { result ≡ in_ranges b local_first }
{
    in_bits::<0x07FF000000000000, 0x07FFFFFE87FFFFFE>(b)
}

// PN_CHARS_U | [0-9] below 128
pub fn is_label_first(b: u8) -> bool
    ensures { result ≡ in_ranges b label_first }
{
    in_bits::<0x03FF000000000000, 0x07FFFFFE87FFFFFE>(b)
}

// PN_LOCAL_ESC after the backslash
pub fn is_reserved(b: u8) -> bool
    ensures { result ≡ in_ranges b reserved }
{
    matches!(b, b'!' | b'#'..=b'/' | b';' | b'=' | b'?'..=b'@' | b'_' | b'~')
}

// [^#x00-#x20<>"{}|^`\] below 128
pub fn is_iri(b: u8) -> bool
    ensures { result ≡ in_ranges b iri }
{
    in_bits::<0xAFFFFFFA00000000, 0xC7FFFFFEAFFFFFFF>(b)
}

// ECHAR after the backslash
pub fn is_echar(b: u8) -> bool
    ensures { result ≡ in_ranges b echar }
{
    matches!(b, b'"' | b'\'' | b'\\' | b'b' | b'f' | b'n' | b'r' | b't')
}
