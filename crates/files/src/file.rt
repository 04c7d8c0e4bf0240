// The file of all slots, measured and written.
ghost use Rattle.std.specs.Prelude.{◌≡◌, ◌≤◌, length};
ghost use Rattle.writers.specs.Buffers.{onto};
ghost use Rattle.files.specs.Placing.{all_entries, file_of, Written};

use crate::entry::{slot_length, write_slot};
use crate::heads::head_at;
use crate::slots::Slots;
use bodies::fault::Refusal;
use writers::bytes::{check_room, write_mark};

// How many slots there are.
const PLACES: usize = 1138;

fn entries_length<S: Slots>(slots: &S) -> usize
    ensures len { result ≡ length (all_entries (S.Slots.holding slots.now)) }
    ensures most { result ≤ 187770 }
{
    let mut sum = 0;
    for place in 0..PLACES {
        let head = head_at(place);
        sum += slot_length(slots.slot(head));
    }
    sum
}

// How many bytes the file takes.
pub fn file_length<S: Slots>(slots: &S) -> usize
    ensures len { result ≡ length (file_of (S.Slots.holding slots.now)) }
    ensures most { result ≤ 187775 }
{
    5 + entries_length(slots)
}

fn write_entries<S: Slots>(slots: &S, out: &mut [u8]) -> usize
    requires { length (all_entries (S.Slots.holding slots.now)) ≤ length out.old }
    ensures len { result ≡ length (all_entries (S.Slots.holding slots.now)) }
    ensures bytes { out.new ≡ onto (all_entries (S.Slots.holding slots.now)) out.old }
{
    let mut at = 0;
    for place in 0..PLACES {
        let head = head_at(place);
        at += write_slot(slots.slot(head), &mut out[at..]);
    }
    at
}

// Writes the mark and every entry at the front of what is lent.
fn write_whole<S: Slots>(slots: &S, out: &mut [u8]) -> usize
    requires { length (file_of (S.Slots.holding slots.now)) ≤ length out.old }
    ensures len { result ≡ length (file_of (S.Slots.holding slots.now)) }
    ensures bytes { out.new ≡ onto (file_of (S.Slots.holding slots.now)) out.old }
{
    let at = write_mark(out);
    at + write_entries(slots, &mut out[at..])
}

// Writes the file at a place of the buffer, if there is room for all of it, and says how many bytes it took.
pub fn write_file<S: Slots>(slots: &S, out: &mut [u8], place: usize) -> Result<usize, Refusal>
    ensures { Written place (file_of (S.Slots.holding slots.now)) out.old out.new result }
{
    let n = file_length(slots);
    check_room(out, place, n)?;
    Ok(write_whole(slots, &mut out[place..]))
}
