// Bytes written in hex.
ghost use Rattle.std.specs.Prelude.{◌≡◌, ◌+◌, ◌*◌, ◌<◌, true, [], ◌∷◌, ◌++◌, length, IfOk, string_bytes, OnOk};
ghost use Rattle.std.specs.List.{list_all};
ghost use Rattle.scripts.specs.Digits.{is_hex_digit, both_digits, is_hex, hex_value as value_of_hex, hex_bytes, hex_digit as digit_of_hex, hex_of};

use std::alloc::AllocError;

fn is_hex_digit(byte: u8) -> bool
    ensures { result ≡ is_hex_digit byte }
{
    byte.is_ascii_hexdigit()
}

fn is_pair(pair: &[u8; 2]) -> bool
    ensures { result ≡ both_digits pair.now }
{
    let [high, low] = *pair;
    is_hex_digit(high) && is_hex_digit(low)
}

fn are_pairs(pairs: &[[u8; 2]]) -> bool
    ensures { result ≡ list_all both_digits pairs.now }
{
    pairs.iter().all(is_pair)
}

// Whether a text is an even number of hex digits.
pub(crate) fn is_hex(text: &[u8]) -> bool
    ensures { result ≡ is_hex text.now }
{
    let (pairs, rest) = text.as_chunks::<2>();
    rest.is_empty() && are_pairs(pairs)
}

// What a hex digit counts; 0 for another byte.
fn hex_value(byte: u8) -> u8
    ensures value { result ≡ value_of_hex byte }
    ensures below { result < 16 }
{
    match byte {
        b'0'..=b'9' => byte - b'0',
        b'a'..=b'f' => byte - b'a' + 10,
        b'A'..=b'F' => byte - b'A' + 10,
        _ => 0,
    }
}

// The byte that two hex digits say.
fn pair_byte(high: u8, low: u8) -> u8
    ensures { result ≡ 16 * value_of_hex high + value_of_hex low }
{
    16 * hex_value(high) + hex_value(low)
}

// Appends the bytes that a hex text says.
pub fn decode(hex: &[u8], out: &mut Vec<u8>) -> Result<(), AllocError>
    ensures { OnOk result (out.new.items ≡ out.old.items ++ hex_bytes hex.now) }
{
    let (pairs, _) = hex.as_chunks::<2>();
    for [high, low] in pairs {
        out.push(pair_byte(*high, *low))?;
    }
    Ok(())
}

// The lower-case hex digit of a number.
fn hex_digit(number: u8) -> char
    requires { number < 16 }
    ensures value { result ≡ digit_of_hex number }
    ensures ascii { result < 128 }
{
    match number {
        0..=9 => (b'0' + number) as char,
        _ => (b'a' + (number - 10)) as char,
    }
}

fn write_byte(byte: u8, out: &mut String) -> Result<(), AllocError>
    ensures { OnOk result (string_bytes out.new ≡ string_bytes out.old ++ hex_of (byte ∷ [])) }
{
    out.push(hex_digit(byte / 16))?;
    out.push(hex_digit(byte % 16))?;
    Ok(())
}

// Appends the lower-case hex of bytes, which read again says the bytes.
pub fn write_hex(bytes: &[u8], out: &mut String) -> Result<(), AllocError>
    ensures text { OnOk result (string_bytes out.new ≡ string_bytes out.old ++ hex_of bytes.now) }
    ensures again { (is_hex (hex_of bytes.now) ≡ true) × (hex_bytes (hex_of bytes.now) ≡ bytes.now) }
{
    for byte in bytes {
        write_byte(*byte, out)?;
    }
    Ok(())
}

// Decodes behind what a store holds, and says from where to where.
pub(crate) fn decode_part(hex: &[u8], store: &mut Vec<u8>) -> Result<(usize, usize), AllocError>
    ensures { IfOk result (λ p. (store.new.items ≡ store.old.items ++ hex_bytes hex.now) × (p.0 ≡ length store.old.items) × (p.1 ≡ length store.new.items)) }
{
    let from = store.len();
    decode(hex, store)?;
    Ok((from, store.len()))
}
