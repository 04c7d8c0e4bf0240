// Verdicts: not tested, passed, failed.
ghost use Rattle.std.specs.Prelude.{◌≡◌};
ghost use Rattle.vocabulary.specs.Numbers.{letter as letter_of};
ghost use Rattle.vocabulary.specs.Verdicts.{failed};

#[derive(Clone, Copy, PartialEq, Eq)]
pub enum Verdict {
    NotTested,
    Passed,
    Failed,
}

impl Verdict {
    // Its letter in a listing.
    pub fn letter(self) -> u8
        ensures { result ≡ letter_of self }
    {
        match self {
            Verdict::NotTested => b'N',
            Verdict::Passed => b'P',
            Verdict::Failed => b'F',
        }
    }

    pub fn is_failed(self) -> bool
        ensures { result ≡ failed self }
    {
        self == Verdict::Failed
    }
}
