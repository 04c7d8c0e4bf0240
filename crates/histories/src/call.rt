// A call on a book, with its arguments.

#[derive(Clone, Copy)]
pub enum Call<'a> {
    Post(&'a [u8]),
    Clear { kind: u8, first: u8, sub: u8 },
    Load(&'a [u8]),
    Close,
}
