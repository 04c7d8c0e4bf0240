// Verdicts as letters.
ghost use Rattle.std.specs.Prelude.{◌≡◌, ◌+◌, ◌<◌, length};
ghost use Rattle.answers.specs.Lines.{letters as letters_of};
ghost use Rattle.writers.specs.Buffers.{onto};

use vocabulary::verdict::Verdict;

// The length of a blank and a letter for each verdict.
pub fn letters_length(verdicts: &[Verdict]) -> usize
    ensures { result ≡ length verdicts.now + 1 }
{
    verdicts.len() + 1
}

// A blank, then a letter for each verdict.
pub fn write_letters(out: &mut [u8], verdicts: &[Verdict]) -> usize
    requires { length verdicts.now < length out.old }
    ensures len { result ≡ length verdicts.now + 1 }
    ensures bytes { out.new ≡ onto (letters_of verdicts.now) out.old }
{
    out[0] = b' ';
    for (i, verdict) in verdicts.iter().enumerate() {
        out[i + 1] = verdict.letter();
    }
    letters_length(verdicts)
}
