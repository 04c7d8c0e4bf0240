// The function that C calls.
ghost use Rattle.std.specs.Prelude.{◌≡◌, ◌+◌, ◌^◌, ◌<◌, ◌≤◌, length};

use crate::answered::write_answers;
use crate::asked::write_questions;
use crate::script::{count, replay};
use bodies::fault::{Fault, Refusal};
use book::book::Book;
use bounds::ceiling::Ceiling;
use bounds::exemption::Exemption;
use bounds::shortfall::Shortfall;
use verdicts::places::standard;

// Writes an output of the book after the script: entries, mitigated file, listing or questions.
fn write_output(script: &[u8], out: &mut [u8], place: usize, which: u32) -> Result<usize, Fault> {
    let mut book = Book::open(standard());
    replay(&mut book, script)?;
    let answer = match which {
        0 => book.write_entries(out, place),
        1 => book.write_mitigated(out, place),
        2 => book.write_listing(out, place),
        4 => write_questions(&book, out, place),
        _ => return Err(Fault::Kind),
    };
    answer.map_err(|refusal| refusal.fault)
}

// Writes what the calls of the script are told.
fn write_told(script: &[u8], out: &mut [u8], place: usize) -> Result<usize, Fault> {
    let calls = count(script)?;
    if place > out.len() || (out.len() - place) / 5 < calls {
        return Err(Fault::Room);
    }
    let mut book = Book::open(standard());
    write_answers(&mut book, script, &mut out[place..]);
    Ok(5 * calls)
}

// A length as it is, a fault as its number below 0.
fn code(answer: Result<usize, Fault>) -> i64 {
    match answer {
        Ok(length) => i64::try_from(length).unwrap_or(-8),
        Err(fault) => -i64::from(fault.number()),
    }
}

// Replays a script of calls on a new book, and writes an output from `place` on: 0 the entry file, 1 the mitigated
// file, 2 the listing, 3 what each call was told, 4 the answers on all resources. Answers its length, or the number
// of a fault below 0, and then leaves what is lent as it was.
#[unsafe(no_mangle)]
pub extern "C" fn hb_replay(script: &[u8], out: &mut [u8], place: usize, which: u32) -> i64 {
    if which == 3 {
        code(write_told(script, out, place))
    } else {
        code(write_output(script, out, place, which))
    }
}
