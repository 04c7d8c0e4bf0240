// Bytes written in decimal.
ghost use Rattle.std.specs.Prelude.{◌≡◌};
ghost use Rattle.scripts.specs.Digits.{three_digits as value_of_three, decimal_byte as value_of_decimal};

fn three_digits(a: u8, b: u8, c: u8) -> Option<u8>
    ensures { result ≡ value_of_three a b c }
{
    if !(a.is_ascii_digit() && b.is_ascii_digit() && c.is_ascii_digit()) {
        return None;
    }
    let number = 100 * (a - b'0') as u16 + 10 * (b - b'0') as u16 + (c - b'0') as u16;
    u8::try_from(number).ok()
}

// A number from 0 to 255 in one to three digits.
pub(crate) fn read_byte(text: &[u8]) -> Option<u8>
    ensures { result ≡ value_of_decimal text.now }
{
    match text {
        [c] => three_digits(b'0', b'0', *c),
        [b, c] => three_digits(b'0', *b, *c),
        [a, b, c] => three_digits(*a, *b, *c),
        _ => None,
    }
}
