// A file held with its length.
ghost use Rattle.std.specs.Prelude.{◌≡◌};
ghost use Rattle.histories.specs.Documents.{bytes_of};

// The first `length` of the bytes; no file of a book is longer than the array.
#[derive(Clone, Copy)]
pub struct File {
    pub bytes: [u8; 31_319],
    pub length: usize,
}

impl File {
    // The bytes of the file; all that the array has, where `length` says more.
    pub fn part(&self) -> &[u8]
        ensures { result.now ≡ bytes_of self.now }
    {
        let end = self.length.min(31_319);
        &self.bytes[0..end]
    }
}
