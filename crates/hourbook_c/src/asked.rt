// The questions on all resources, and on one that does not exist.
ghost use Rattle.std.specs.Prelude.{◌≡◌, ◌+◌, ◌≤◌, length};

use answers::answer::Answer;
use bodies::fault::Refusal;
use book::book::Book;
use charges::rules::Rules;
use writers::bytes::check_room;

// A one, 24 letters and four charges.
fn answer_bytes(answer: &Answer) -> [u8; 57] {
    let mut out = [0; 57];
    out[0] = 1;
    let verdicts = answer
        .conduct
        .iter()
        .chain(&answer.impact)
        .chain(&answer.resource)
        .chain(&answer.entity)
        .chain(&answer.quantity_impact);
    for (byte, verdict) in out[1..25].iter_mut().zip(verdicts) {
        *byte = verdict.letter();
    }
    for (bytes, charge) in out[25..].chunks_exact_mut(8).zip(answer.charges) {
        bytes.copy_from_slice(&charge.to_be_bytes());
    }
    out
}

// The answer on a resource, or zeros where there is no such resource.
fn question_bytes<R: Rules>(book: &Book<R>, resource: u8) -> [u8; 57] {
    let mut answer = Answer::nothing();
    match book.question(resource, &mut answer) {
        Ok(()) => answer_bytes(&answer),
        Err(_) => [0; 57],
    }
}

// Writes the answers on resources 0 to 32, 57 bytes each, from a place of the buffer on.
pub fn write_questions<R: Rules>(
    book: &Book<R>,
    out: &mut [u8],
    place: usize,
) -> Result<usize, Refusal> {
    check_room(out, place, 1881)?;
    let part = &mut out[place..place + 1881];
    for (resource, bytes) in part.chunks_exact_mut(57).enumerate() {
        bytes.copy_from_slice(&question_bytes(book, resource as u8));
    }
    Ok(1881)
}
