// What the reader answers, as numbers.
ghost use Rattle.std.specs.Prelude.{◌≡◌};
ghost use Rattle.entries.specs.Files.{post_fault, file_fault as fault_of_file};
ghost use Rattle.entries.specs.Table.{kinds};

use bodies::fault::Refusal;
use entries::reader::{check_file, read_posted};

// The number of the fault of a posted entry, or 0.
pub fn posted_fault(bytes: &[u8]) -> u8
    ensures { result ≡ post_fault kinds bytes.now }
{
    match read_posted(bytes) {
        Ok(_) => 0,
        Err(fault) => fault.number(),
    }
}

// The number of the first fault of a file, or 0, and its place.
pub fn file_fault(file: &[u8]) -> (u8, usize)
    ensures { record { number = result.0; place = result.1 } ≡ fault_of_file kinds file.now }
{
    match check_file(file) {
        Ok(()) => (0, 0),
        Err(Refusal { fault, place }) => (fault.number(), place),
    }
}
