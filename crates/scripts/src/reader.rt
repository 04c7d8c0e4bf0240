// Texts read as scripts.
ghost use Rattle.std.specs.Prelude.{◌+◌, ◌^◌, ◌<◌, length, IfOk};
ghost use Rattle.scripts.specs.Scripts.{ReadCall, Reads};

use crate::command::{Command, read_command};
use crate::fault::Fault;
use crate::hex::decode_part;
use crate::script::Script;
use crate::scripted::Scripted;
use crate::texts::lines_in;
use std::alloc::{AllocError, Global};

// The call that a line is, if it is one, its bytes put behind those of the store.
fn read_call(line: &[u8], store: &mut Vec<u8>) -> Result<Option<Scripted>, AllocError>
    ensures { IfOk result (λ call. ReadCall line.now store.old.items store.new.items call) }
{
    let Some(command) = read_command(line) else {
        return Ok(None);
    };
    match command {
        Command::Post(hex) => {
            let (from, to) = decode_part(hex, store)?;
            Ok(Some(Scripted::Post { from, to }))
        }
        Command::Load(hex) => {
            let (from, to) = decode_part(hex, store)?;
            Ok(Some(Scripted::Load { from, to }))
        }
        Command::Clear { kind, first, sub } => Ok(Some(Scripted::Clear { kind, first, sub })),
        Command::Close => Ok(Some(Scripted::Close)),
        Command::Ask { .. } | Command::Entries | Command::Mitigated | Command::Listing => Ok(None),
    }
}

// The script that a text is, above which so many lines of the whole input stand.
pub fn read_script(heap: Global, text: &[u8], above: usize) -> Result<Script, Fault>
    requires { above + length text.now < 2 ^ 64 }
    ensures { Reads above text.now result }
{
    let mut bytes = Vec::new(heap);
    let mut calls = Vec::new(heap);
    for (i, line) in lines_in(text).enumerate() {
        let Some(call) = read_call(line, &mut bytes)? else {
            return Err(Fault::NoCall {
                line: above + i + 1,
            });
        };
        calls.push(call)?;
    }
    Ok(Script { bytes, calls })
}
