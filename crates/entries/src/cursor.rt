// Where reading stands in a file.
ghost use Rattle.std.specs.Prelude.{◌≡◌, length};
ghost use Rattle.entries.specs.Files.{entries_left, entries_of};

// Reading is at `at` and goes no further than `limit` just now; the file ends at `end`.
#[derive(Clone, Copy)]
pub struct Cursor {
    pub at: usize,
    pub limit: usize,
    pub end: usize,
}

impl Cursor {
    // Before the first entry of a file, with all of them left.
    pub fn at_first(file: &[u8]) -> Cursor
        ensures value { result ≡ record { at = 5; limit = length file.now; end = length file.now } }
        ensures all { entries_left file.now result ≡ entries_of file.now }
    {
        let end = file.len();
        Cursor {
            at: 5,
            limit: end,
            end,
        }
    }
}

// While it lives, reading ends with a body; once it is dropped, with the file again.
pub struct BodyGuard<'c> {
    pub cursor: &'c mut Cursor,
}

impl Drop for BodyGuard<'_> {
    fn drop(self)
        ensures { self.exit.0.now ≡ record { at = self.entry.cursor.now.at; limit = self.entry.cursor.now.end; end = self.entry.cursor.now.end } }
    {
        self.cursor.limit = self.cursor.end;
        let BodyGuard { cursor: _ } = self;
    }
}
