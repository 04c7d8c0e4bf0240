// Texts of two scripts.
ghost use Rattle.scripts.specs.Scripts.{Parts, ReadsPair};

use crate::fault::Fault;
use crate::reader::read_script;
use crate::script::Script;
use crate::texts::{is, split_line};
use std::alloc::Global;

// The text above the first line that is `--`, the text below it, and how many lines stand above that.
pub fn part(text: &[u8]) -> Option<(&[u8], &[u8], usize)>
    ensures { Parts text.now result }
{
    let mut rest = text;
    let mut number = 0;
    while let Some((line, more)) = split_line(rest) {
        number += 1;
        if is(line, b"--") {
            return Some((&text[0..text.len() - rest.len()], more, number));
        }
        rest = more;
    }
    None
}

// The two scripts that a line `--` parts; none where there is no such line.
pub fn read_pair(heap: Global, text: &[u8]) -> Result<Option<(Script, Script)>, Fault>
    ensures { ReadsPair text.now result }
{
    let Some((first, second, above)) = part(text) else {
        return Ok(None);
    };
    let one = read_script(heap, first, 0)?;
    let other = read_script(heap, second, above)?;
    Ok(Some((one, other)))
}
