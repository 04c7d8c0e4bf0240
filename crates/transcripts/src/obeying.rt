// One line of a script, obeyed on a book and answered.
ghost use Rattle.std.specs.Prelude.{◌≡◌, IfOk, string_bytes, OnOk};
ghost use Rattle.entries.specs.Table.{kinds};
ghost use Rattle.ledger.specs.Slots.{WellFormed};
ghost use Rattle.table.specs.Ranges.{AllRanged};
ghost use Rattle.table.specs.Tables.{slots_of};
ghost use Rattle.book.specs.Ledgers.{ledger_of};
ghost use Rattle.histories.specs.Documents.{drawn as drawn_of};
ghost use Rattle.scripts.specs.Commands.{order_of, command_of};
ghost use Rattle.scripts.specs.Digits.{hex_bytes};
ghost use Rattle.transcripts.specs.Replies.{hex_line as hex_line_of, found_text};
ghost use Rattle.transcripts.specs.Transcripts.{after, reply, after_line, reply_line};

use crate::texts::{answer_text, hex_line, no_call, told_text};
use answering::texts::refused;
use answers::answer::Answer;
use book::book::Book;
use charges::rules::Rules;
use histories::document::Document;
use histories::drawn::file;
use scripts::command::{Command, read_command};
use scripts::hex::decode;
use std::alloc::{AllocError, Global};

fn decoded(heap: Global, hex: &[u8]) -> Result<Vec<u8>, AllocError>
    ensures { IfOk result (λ v. v.items ≡ hex_bytes hex.now) }
{
    let mut bytes = Vec::new(heap);
    decode(hex, &mut bytes)?;
    Ok(bytes)
}

// The verdicts on a resource and its charges.
fn found<R: Rules>(heap: Global, book: &Book<R>, resource: u8) -> Result<String, AllocError>
    requires { AllRanged book.now.table }
    ensures { IfOk result (λ s. string_bytes s ≡ found_text (R.meanings book.now.rules) (slots_of book.now.table) resource) }
{
    let mut answer = Answer::nothing();
    match book.question(resource, &mut answer) {
        Ok(()) => answer_text(heap, &answer),
        Err(refusal) => refused(heap, refusal),
    }
}

// A file of a book in hex.
fn drawn<R: Rules>(heap: Global, book: &Book<R>, document: Document) -> Result<String, AllocError>
    requires well { WellFormed kinds (slots_of book.now.table) }
    requires ranged { AllRanged book.now.table }
    ensures { IfOk result (λ s. string_bytes s ≡ hex_line_of (drawn_of document (R.meanings book.now.rules) (slots_of book.now.table))) }
{
    hex_line(heap, file(book, document).part())
}

// Obeys a command on a book that some list of calls leads to; without memory the book may be left as it was.
pub fn obey<R: Rules>(
    heap: Global,
    book: &mut Book<R>,
    command: Command,
) -> Result<String, AllocError>
    requires well { WellFormed kinds (slots_of book.old.table) }
    requires ranged { AllRanged book.old.table }
    ensures text { IfOk result (λ s. string_bytes s ≡ reply (R.meanings book.old.rules) (ledger_of book.old.table book.old.is_open) (order_of command.entry)) }
    ensures ledger { OnOk result (ledger_of book.new.table book.new.is_open ≡ after (ledger_of book.old.table book.old.is_open) (order_of command.entry)) }
    ensures bounds { book.new.rules ≡ book.old.rules }
    ensures ranged { AllRanged book.new.table }
{
    match command {
        Command::Post(hex) => {
            let bytes = decoded(heap, hex)?;
            told_text(heap, book.post(bytes.as_slice()))
        }
        Command::Load(hex) => {
            let bytes = decoded(heap, hex)?;
            told_text(heap, book.load(bytes.as_slice()))
        }
        Command::Clear { kind, first, sub } => told_text(heap, book.clear(kind, first, sub)),
        Command::Close => told_text(heap, book.close()),
        Command::Ask { resource } => found(heap, book, resource),
        Command::Entries => drawn(heap, book, Document::Entries),
        Command::Mitigated => drawn(heap, book, Document::Mitigated),
        Command::Listing => drawn(heap, book, Document::Listing),
    }
}

// Obeys the line of this number, or says that it is no call.
pub(crate) fn obey_line<R: Rules>(
    heap: Global,
    book: &mut Book<R>,
    line: &[u8],
    number: usize,
) -> Result<String, AllocError>
    requires well { WellFormed kinds (slots_of book.old.table) }
    requires ranged { AllRanged book.old.table }
    ensures text { IfOk result (λ s. string_bytes s ≡ reply_line (R.meanings book.old.rules) (ledger_of book.old.table book.old.is_open) number (command_of line.now)) }
    ensures ledger { OnOk result (ledger_of book.new.table book.new.is_open ≡ after_line (ledger_of book.old.table book.old.is_open) (command_of line.now)) }
    ensures bounds { book.new.rules ≡ book.old.rules }
    ensures ranged { AllRanged book.new.table }
{
    match read_command(line) {
        Some(command) => obey(heap, book, command),
        None => no_call(heap, number),
    }
}
