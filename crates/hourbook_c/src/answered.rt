// What the calls of a script were told.
ghost use Rattle.std.specs.Prelude.{◌+◌, ◌*◌, ◌^◌, ◌<◌, ◌≤◌, length};

use crate::script::split_call;
use bodies::fault::Refusal;
use book::book::Book;
use charges::rules::Rules;
use histories::replay::obey;

// The number of a refusal, 0 for none, and the low four bytes of its place.
fn told_bytes(answer: Result<(), Refusal>) -> [u8; 5] {
    match answer {
        Ok(()) => [0; 5],
        Err(refusal) => {
            let [a, b, c, d] = ((refusal.place & 0xffff_ffff) as u32).to_be_bytes();
            [refusal.fault.number(), a, b, c, d]
        }
    }
}

// Makes the calls of a script in turn, and writes what each is told, five bytes a call, as far as there is room.
pub fn write_answers<R: Rules>(book: &mut Book<R>, script: &[u8], out: &mut [u8]) {
    let mut rest = script;
    for bytes in out.chunks_exact_mut(5) {
        let Ok(Some((call, more))) = split_call(rest) else {
            return;
        };
        bytes.copy_from_slice(&told_bytes(obey(book, call)));
        rest = more;
    }
}
