// Scripts: calls one behind the other, each a number and then its arguments.
ghost use Rattle.std.specs.Prelude.{◌≡◌, ◌<◌, ◌≤◌, length, IfOk, IfSome, Some, None, MatchResult};
ghost use Rattle.bodies.specs.declared.fault.Fault.TheVariants.{Short};
ghost use Rattle.hourbook_c.specs.Scripts.{part, first_call, said};

use bodies::fault::Fault;
use bodies::numbers::read_word;
use book::book::Book;
use charges::rules::Rules;
use histories::call::Call;
use histories::replay::obey;

// The bytes whose number stands in the first four, and what is behind them.
fn split_part(bytes: &[u8]) -> Result<(&[u8], &[u8]), Fault>
    ensures { MatchResult result (λ p. part bytes.now ≡ Some (p.0.now, p.1.now)) (λ fault. (fault ≡ Short) × (part bytes.now ≡ None)) }
{
    if bytes.len() < 4 {
        return Err(Fault::Short);
    }
    let size = read_word(bytes, 0) as usize;
    let rest = &bytes[4..];
    if rest.len() < size {
        return Err(Fault::Short);
    }
    Ok(rest.split_at(size))
}

// The call that a script begins with, and the script behind it; none where nothing is left.
pub fn split_call(script: &[u8]) -> Result<Option<(Call<'_>, &[u8])>, Fault>
    ensures shorter { IfOk result (λ o. IfSome o (λ p. length p.1.now < length script.now)) }
    ensures call { said result ≡ first_call script.now }
{
    match script {
        [] => Ok(None),
        [1, rest @ ..] => {
            let (bytes, rest) = split_part(rest)?;
            Ok(Some((Call::Post(bytes), rest)))
        }
        [2, rest @ ..] => {
            let (file, rest) = split_part(rest)?;
            Ok(Some((Call::Load(file), rest)))
        }
        [3, kind, first, sub, rest @ ..] => {
            let call = Call::Clear {
                kind: *kind,
                first: *first,
                sub: *sub,
            };
            Ok(Some((call, rest)))
        }
        [3, ..] => Err(Fault::Short),
        [4, rest @ ..] => Ok(Some((Call::Close, rest))),
        _ => Err(Fault::Kind),
    }
}

// How many calls the script has.
pub fn count(script: &[u8]) -> Result<usize, Fault>
    ensures { IfOk result (λ n. n ≤ length script.now) }
{
    let mut rest = script;
    let mut calls = 0;
    while let Some((_call, more)) = split_call(rest)? {
        calls += 1;
        rest = more;
    }
    Ok(calls)
}

// Makes the calls of a script in turn, refused or obeyed; ends at the first that is no call.
pub fn replay<R: Rules>(book: &mut Book<R>, script: &[u8]) -> Result<(), Fault>
    ensures { length script.now ≡ 0 → book.new ≡ book.old }
{
    let mut rest = script;
    while let Some((call, more)) = split_call(rest)? {
        let _ = obey(book, call);
        rest = more;
    }
    Ok(())
}
