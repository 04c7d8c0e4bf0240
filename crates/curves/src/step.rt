// A step of a curve.

// A price in cents, and the quantity in tenths of a megawatt where the step ends.
#[derive(Clone, Copy, PartialEq, Eq)]
pub struct Step {
    pub price: i32,
    pub end: u32,
}
