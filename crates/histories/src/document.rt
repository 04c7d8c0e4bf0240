// The three files that leave a book.

#[derive(Clone, Copy)]
pub enum Document {
    Entries,
    Mitigated,
    Listing,
}
