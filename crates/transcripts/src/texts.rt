// Answers as text.
ghost use Rattle.std.specs.Prelude.{◌≡◌, [], ◌∷◌, IfOk, string_bytes};
ghost use Rattle.entries.specs.Files.{told};
ghost use Rattle.transcripts.specs.Replies.{told_text, hex_line as hex_line_of, spelled, verdicts_text as verdicts_of, charges_text as charges_of, answer_text as answer_of, no_call as no_call_of};

use answering::texts::refused;
use answers::answer::Answer;
use bodies::fault::Refusal;
use scripts::hex::write_hex;
use std::alloc::{AllocError, Global};
use vocabulary::verdict::Verdict;

// Whether a call was obeyed.
pub(crate) fn told_text(heap: Global, outcome: Result<(), Refusal>) -> Result<String, AllocError>
    ensures { IfOk result (λ s. string_bytes s ≡ told_text (told outcome)) }
{
    match outcome {
        Ok(()) => String::from_str(heap, "OK\n"),
        Err(refusal) => refused(heap, refusal),
    }
}

// Bytes in lower-case hex, `-` for none.
pub(crate) fn hex_line(heap: Global, bytes: &[u8]) -> Result<String, AllocError>
    ensures { IfOk result (λ s. string_bytes s ≡ hex_line_of bytes.now) }
{
    if bytes.is_empty() {
        return String::from_str(heap, "-\n");
    }
    let mut text = String::new(heap);
    write_hex(bytes, &mut text)?;
    format!(in heap; "{text}\n")
}

// A letter for each verdict.
fn letters(heap: Global, verdicts: &[Verdict]) -> Result<String, AllocError>
    ensures { IfOk result (λ s. string_bytes s ≡ spelled verdicts.now) }
{
    let mut text = String::new(heap);
    for verdict in verdicts {
        text.push(char::from(verdict.letter()))?;
    }
    Ok(text)
}

fn verdicts_text(heap: Global, answer: &Answer) -> Result<String, AllocError>
    ensures { IfOk result (λ s. string_bytes s ≡ verdicts_of answer.now) }
{
    let conduct = letters(heap, &answer.conduct)?;
    let impact = letters(heap, &answer.impact)?;
    let resource = letters(heap, &answer.resource)?;
    let entity = letters(heap, &answer.entity)?;
    let quantity_impact = letters(heap, &answer.quantity_impact)?;
    format!(in heap; "{conduct} {impact} {resource} {entity} {quantity_impact}")
}

fn charges_text(heap: Global, charges: &[u64; 4]) -> Result<String, AllocError>
    ensures { IfOk result (λ s. string_bytes s ≡ charges_of charges.now) }
{
    let [energy, spinning, non_spinning, thirty_minute] = charges;
    format!(in heap; "{energy} {spinning} {non_spinning} {thirty_minute}")
}

// The verdicts on a resource, then its charges.
pub(crate) fn answer_text(heap: Global, answer: &Answer) -> Result<String, AllocError>
    ensures { IfOk result (λ s. string_bytes s ≡ answer_of answer.now) }
{
    let verdicts = verdicts_text(heap, answer)?;
    let charges = charges_text(heap, &answer.charges)?;
    format!(in heap; "{verdicts} {charges}\n")
}

// The answer to a line that is no call.
pub(crate) fn no_call(heap: Global, number: usize) -> Result<String, AllocError>
    ensures { IfOk result (λ s. string_bytes s ≡ no_call_of number) }
{
    format!(in heap; "LINE {number} IS NO CALL\n")
}
