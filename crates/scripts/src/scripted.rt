// A call whose bytes stand in a store, from one place to before another.

#[derive(Clone, Copy)]
pub enum Scripted {
    Post { from: usize, to: usize },
    Load { from: usize, to: usize },
    Clear { kind: u8, first: u8, sub: u8 },
    Close,
}
