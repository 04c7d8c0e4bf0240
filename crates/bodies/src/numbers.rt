// Numbers from bytes and back, the high byte first.
ghost use Rattle.std.specs.Prelude.{◌≡◌, ◌+◌, ◌≤◌, length, take, drop};
ghost use Rattle.bodies.specs.Numbers.{word, number, size, word_bytes as bytes_of_word, number_bytes as bytes_of_number};

// The unsigned number of the four bytes from `at` on.
pub fn read_word(bytes: &[u8], at: usize) -> u32
    requires { at + 4 ≤ length bytes.now }
    ensures value { result ≡ word (drop at bytes.now) }
    ensures again { bytes_of_word result ≡ take 4 (drop at bytes.now) }
{
    u32::from_be_bytes([bytes[at], bytes[at + 1], bytes[at + 2], bytes[at + 3]])
}

// The signed number of the four bytes from `at` on.
pub fn read_number(bytes: &[u8], at: usize) -> i32
    requires { at + 4 ≤ length bytes.now }
    ensures value { result ≡ number (drop at bytes.now) }
    ensures again { bytes_of_number result ≡ take 4 (drop at bytes.now) }
{
    read_word(bytes, at).cast_signed()
}

// The length in the two bytes from `at` on.
pub fn read_size(bytes: &[u8], at: usize) -> u16
    requires { at + 2 ≤ length bytes.now }
    ensures { result ≡ size (drop at bytes.now) }
{
    u16::from_be_bytes([bytes[at], bytes[at + 1]])
}

pub fn word_bytes(n: u32) -> [u8; 4]
    ensures value { result ≡ bytes_of_word n }
    ensures back { word result ≡ n }
{
    n.to_be_bytes()
}

pub fn number_bytes(z: i32) -> [u8; 4]
    ensures value { result ≡ bytes_of_number z }
    ensures back { number result ≡ z }
{
    word_bytes(z.cast_unsigned())
}
