// Lines read as commands: `post HEX`, `load HEX`, `clear KIND FIRST SUB`, `close`, `ask R`, `entries`, `mitigated` and
// `listing`, with single blanks. HEX may have no digits, and then its blank may be missing too.
ghost use Rattle.std.specs.Prelude.{◌≡◌};
ghost use Rattle.std.specs.Option.{option_map};
ghost use Rattle.scripts.specs.Commands.{order_of, alone as alone_of, with_one as of_one, with_three as three_of, command_of};

use crate::decimal::read_byte;
use crate::hex::is_hex;
use crate::texts::{is, split_word};

// `Post` and `Load` hold hex digits, a part of the line.
#[derive(Clone, Copy)]
pub enum Command<'a> {
    Post(&'a [u8]),
    Load(&'a [u8]),
    Clear { kind: u8, first: u8, sub: u8 },
    Close,
    Ask { resource: u8 },
    Entries,
    Mitigated,
    Listing,
}

// A name by itself; `post` and `load` then have no bytes.
fn alone(name: &[u8]) -> Option<Command<'_>>
    ensures { option_map order_of result ≡ alone_of name.now }
{
    if is(name, b"post") {
        Some(Command::Post(&[]))
    } else if is(name, b"load") {
        Some(Command::Load(&[]))
    } else if is(name, b"close") {
        Some(Command::Close)
    } else if is(name, b"entries") {
        Some(Command::Entries)
    } else if is(name, b"mitigated") {
        Some(Command::Mitigated)
    } else if is(name, b"listing") {
        Some(Command::Listing)
    } else {
        None
    }
}

// A name and one word behind it.
fn with_one<'a>(name: &[u8], word: &'a [u8]) -> Option<Command<'a>>
    ensures { option_map order_of result ≡ of_one name.now word.now }
{
    if is(name, b"post") && is_hex(word) {
        Some(Command::Post(word))
    } else if is(name, b"load") && is_hex(word) {
        Some(Command::Load(word))
    } else if is(name, b"ask") {
        read_byte(word).map(|resource| Command::Ask { resource })
    } else {
        None
    }
}

// A name and three words behind it.
fn with_three(name: &[u8], kind: &[u8], first: &[u8], sub: &[u8]) -> Option<Command<'static>>
    ensures { option_map order_of result ≡ three_of name.now kind.now first.now sub.now }
{
    if !is(name, b"clear") {
        return None;
    }
    let kind = read_byte(kind)?;
    let first = read_byte(first)?;
    let sub = read_byte(sub)?;
    Some(Command::Clear { kind, first, sub })
}

// The command that a line is, if it is one.
pub fn read_command(line: &[u8]) -> Option<Command<'_>>
    ensures { option_map order_of result ≡ command_of line.now }
{
    let Some((name, rest)) = split_word(line) else {
        return alone(line);
    };
    let Some((kind, rest)) = split_word(rest) else {
        return with_one(name, rest);
    };
    let (first, sub) = split_word(rest)?;
    match split_word(sub) {
        Some(_) => None,
        None => with_three(name, kind, first, sub),
    }
}
