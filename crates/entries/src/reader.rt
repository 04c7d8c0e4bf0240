// Entries read from a file one after the other, or posted alone.
ghost use Rattle.std.specs.Prelude.{◌≡◌, ◌+◌, ◌<◌, ◌≤◌, length, drop, MatchResult};
ghost use Rattle.entries.specs.Entries.{raw, raw_of};
ghost use Rattle.bodies.specs.Faults.{Reads, fault_of};
ghost use Rattle.entries.specs.Files.{head_fault as fault_of_head, body_fault as fault_of_body, first_fault, short, head_of, entry_at, entry_bytes, mark_fault as fault_of_mark, entry_fault, post_fault, file_fault, told, Between, Ahead, Next};
ghost use Rattle.bodies.specs.Numbers.{size};
ghost use Rattle.entries.specs.Table.{kinds};

use crate::cursor::{BodyGuard, Cursor};
use crate::entry::Entry;
use crate::head::Head;
use bodies::fault::{Fault, Refusal};
use bodies::numbers::read_size;

// The head of the entry that begins the bytes, and the length of its body.
fn read_head(bytes: &[u8]) -> Result<(Head, usize), Fault>
    ensures { Reads (short bytes.now) (λ p. (p.0 ≡ head_of bytes.now) × (p.1 ≡ size (drop 3 bytes.now)) × (5 + p.1 ≤ length bytes.now)) result }
{
    let [kind, first, sub, _, _, ..] = bytes else {
        return Err(Fault::Short);
    };
    let head = Head {
        kind: *kind,
        first: *first,
        sub: *sub,
    };
    let length = read_size(bytes, 3) as usize;
    if bytes.len() < 5 + length {
        return Err(Fault::Short);
    }
    Ok((head, length))
}

// An entry by itself: nothing may follow its body. Written again it is the same bytes.
pub fn read_posted<'a>(bytes: &'a [u8]) -> Result<Entry<'a>, Fault>
    ensures { Reads (post_fault kinds bytes.now) (λ e. (raw_of e ≡ entry_at 0 bytes.now) × (entry_bytes (raw_of e).head (raw_of e).body ≡ bytes.now)) result }
{
    let (head, length) = read_head(bytes)?;
    let entry = Entry::with_head(head, &bytes[5..5 + length], 0)?;
    if bytes.len() > 5 + length {
        return Err(Fault::Length);
    }
    entry.check_body()?;
    Ok(entry)
}

// What was read of the entry at a place; a fault is told with the place.
fn at_place<T>(place: usize, read: Result<T, Fault>) -> Result<T, Refusal>
    ensures { MatchResult read (λ value. result ≡ Ok value) (λ fault. result ≡ Err (record { fault = fault; place = place })) }
{
    read.map_err(|fault| Refusal { fault, place })
}

// The head of the next entry of a file and where that entry ends, or none at the file's end.
fn ahead(file: &[u8], cursor: &Cursor) -> Result<Option<(Head, usize)>, Refusal>
    requires { Between cursor.now file.now }
    ensures { Ahead kinds file.now cursor.now result }
{
    let place = cursor.at;
    if place == cursor.limit {
        return Ok(None);
    }
    let (head, length) = at_place(place, read_head(&file[place..cursor.limit]))?;
    Ok(Some((head, place + 5 + length)))
}

// The entry of a head and a body, or the first fault of the two.
fn checked<'a>(head: Head, body: &'a [u8], place: usize) -> Result<Entry<'a>, Fault>
    ensures { Reads (first_fault (fault_of_head kinds head) (fault_of_body kinds head body.now)) (λ e. raw_of e ≡ raw head body.now place) result }
{
    let entry = Entry::with_head(head, body, place)?;
    entry.check_body()?;
    Ok(entry)
}

// The next entry of a file, or none at its end. A refusal leaves the cursor where it was.
pub fn next_entry<'a>(file: &'a [u8], cursor: &mut Cursor) -> Result<Option<Entry<'a>>, Refusal>
    requires { Between cursor.old file.now }
    ensures { Next kinds file.now cursor.old cursor.new result }
{
    let place = cursor.at;
    let Some((head, past)) = ahead(file, cursor)? else {
        return Ok(None);
    };
    cursor.limit = past;
    let guard = BodyGuard { cursor };
    let body = &file[place + 5..guard.cursor.limit];
    let entry = at_place(place, checked(head, body, place))?;
    guard.cursor.at = guard.cursor.limit;
    Ok(Some(entry))
}

// The same, where the next entry is known to have no fault: its body is not looked at.
pub fn next_sound<'a>(file: &'a [u8], cursor: &mut Cursor) -> Result<Option<Entry<'a>>, Refusal>
    requires between { Between cursor.old file.now }
    requires sound { cursor.old.at < length file.now → entry_fault kinds (drop cursor.old.at file.now) ≡ 0 }
    ensures { Next kinds file.now cursor.old cursor.new result }
{
    let place = cursor.at;
    let Some((head, past)) = ahead(file, cursor)? else {
        return Ok(None);
    };
    let body = &file[place + 5..past];
    let entry = at_place(place, Entry::with_head(head, body, place))?;
    cursor.at = past;
    Ok(Some(entry))
}

// Refuses a file by its first five bytes.
fn check_mark(file: &[u8]) -> Result<(), Fault>
    ensures { fault_of result ≡ fault_of_mark file.now }
{
    match file {
        [b'M', b'P', b'M', 0, 1, ..] => Ok(()),
        [_, _, _, _, _, ..] => Err(Fault::Mark),
        _ => Err(Fault::Short),
    }
}

// The first fault of a whole file, or that there is none.
pub fn check_file(file: &[u8]) -> Result<(), Refusal>
    ensures { told result ≡ file_fault kinds file.now }
{
    check_mark(file)?;
    let mut cursor = Cursor::at_first(file);
    while let Some(_entry) = next_entry(file, &mut cursor)? {}
    Ok(())
}
