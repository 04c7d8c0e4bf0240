// Bytes at the front of a buffer.
ghost use Rattle.std.specs.Prelude.{◌≡◌, ◌+◌, ◌<◌, ◌≤◌, length, MatchResult};
ghost use Rattle.bodies.specs.declared.fault.Fault.TheVariants.{Room};
ghost use Rattle.entries.specs.Entries.{raw};
ghost use Rattle.entries.specs.Files.{head_bytes, entry_bytes, entry_at, mark};
ghost use Rattle.writers.specs.Buffers.{onto};

use bodies::fault::{Fault, Refusal};
use entries::head::Head;

// Whether a buffer has room for n bytes from a place on.
pub fn check_room(out: &[u8], place: usize, n: usize) -> Result<(), Refusal>
    ensures { MatchResult result (λ _. place + n ≤ length out.now) (λ r. (r ≡ record { fault = Room; place = 0 }) × (length out.now < place + n)) }
{
    if place > out.len() || out.len() - place < n {
        return Err(Fault::Room.into());
    }
    Ok(())
}

// How many bytes were written.
pub fn write_bytes(out: &mut [u8], bytes: &[u8]) -> usize
    requires { length bytes.now ≤ length out.old }
    ensures len { result ≡ length bytes.now }
    ensures bytes { out.new ≡ onto bytes.now out.old }
{
    let n = bytes.len();
    out[0..n].copy_from_slice(bytes);
    n
}

// The letters and the version that begin a file.
pub fn write_mark(out: &mut [u8]) -> usize
    requires { 5 ≤ length out.old }
    ensures len { result ≡ 5 }
    ensures bytes { out.new ≡ onto mark out.old }
{
    write_bytes(out, &[b'M', b'P', b'M', 0, 1])
}

// The head of an entry, whose body has n bytes.
pub fn write_head(out: &mut [u8], head: Head, n: usize) -> usize
    requires { (5 ≤ length out.old) × (n < 65536) }
    ensures len { result ≡ 5 }
    ensures bytes { out.new ≡ onto (head_bytes head n) out.old }
{
    write_bytes(
        out,
        &[
            head.kind,
            head.first,
            head.sub,
            (n / 256) as u8,
            (n % 256) as u8,
        ],
    )
}

// An entry of any kind. It is read back with its head and its body.
pub fn write_entry(out: &mut [u8], head: Head, body: &[u8]) -> usize
    requires { (length body.now < 65536) × (5 + length body.now ≤ length out.old) }
    ensures len { result ≡ 5 + length body.now }
    ensures bytes { out.new ≡ onto (entry_bytes head body.now) out.old }
    ensures back { entry_at 0 (entry_bytes head body.now) ≡ raw head body.now 0 }
    ensures reads { entry_at 0 out.new ≡ raw head body.now 0 }
{
    let at = write_head(out, head, body.len());
    at + write_bytes(&mut out[at..], body)
}
