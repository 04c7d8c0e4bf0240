// A whole script obeyed on a new book.
ghost use Rattle.std.specs.Prelude.{◌≡◌, IfOk, string_bytes};
ghost use Rattle.entries.specs.Table.{kinds};
ghost use Rattle.ledger.specs.Ledger.{empty as no_calls};
ghost use Rattle.scripts.specs.Texts.{lines_of};
ghost use Rattle.answering.specs.Texts.{standard_meanings};
ghost use Rattle.transcripts.specs.Transcripts.{transcript as transcript_of};

use crate::obeying::obey_line;
use book::book::Book;
use bounds::ceiling::Ceiling;
use bounds::exemption::Exemption;
use bounds::shortfall::Shortfall;
use charges::rules::Rules;
use scripts::texts::lines_in;
use std::alloc::{AllocError, Global};
use verdicts::places::standard;

// The answers over any bounds, a line for each line.
pub fn transcript_over<R: Rules + Drop>(
    rules: R,
    heap: Global,
    script: &[u8],
) -> Result<String, AllocError>
    ensures { IfOk result (λ s. string_bytes s ≡ transcript_of (R.meanings rules) (no_calls kinds) 0 (lines_of script.now)) }
{
    let mut book = Book::open(rules);
    let mut text = String::new(heap);
    for (i, line) in lines_in(script).enumerate() {
        let answer = obey_line(heap, &mut book, line, i + 1)?;
        text.push_str(answer.as_str())?;
    }
    Ok(text)
}

// The answers over the market's own bounds.
pub fn transcript(heap: Global, script: &[u8]) -> Result<String, AllocError>
    ensures { IfOk result (λ s. string_bytes s ≡ transcript_of standard_meanings (no_calls kinds) 0 (lines_of script.now)) }
{
    transcript_over(standard(), heap, script)
}
