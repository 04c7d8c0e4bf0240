// Numbers in decimal.
ghost use Rattle.std.specs.Prelude.{◌≡◌, ◌≤◌, length, decimal as decimal_of};
ghost use Rattle.writers.specs.Buffers.{onto};

use itoa::Buffer;
use writers::bytes::write_bytes;

// How many digits.
pub fn decimal_length(n: u64) -> usize
    ensures len { result ≡ length (decimal_of n) }
    ensures most { result ≤ 20 }
{
    Buffer::new().format(n).len()
}

// How many digits were written.
pub fn write_decimal(out: &mut [u8], n: u64) -> usize
    requires { length (decimal_of n) ≤ length out.old }
    ensures len { result ≡ length (decimal_of n) }
    ensures bytes { out.new ≡ onto (decimal_of n) out.old }
{
    write_bytes(out, Buffer::new().format(n).as_bytes())
}
