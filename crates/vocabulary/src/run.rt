// The pricing runs whose prices the book is given.
ghost use Rattle.std.specs.Prelude.{◌≡◌};
ghost use Rattle.vocabulary.specs.Numbers.{run_number};

#[derive(Clone, Copy, PartialEq, Eq)]
pub enum Run {
    AsOffered,
    ReferenceLevel,
    ReferenceQuantity,
}

impl Run {
    pub fn number(self) -> usize
        ensures { result ≡ run_number self }
    {
        self as usize
    }
}
