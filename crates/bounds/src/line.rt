// The line that a bound is told.
ghost use Rattle.std.specs.Prelude.{◌≡◌, true};
ghost use Rattle.bounds.specs.Ranges.{in_range};

pub mod checked;

// A percent of the reference, and in the unit of the value a cap and a floor, each in its range.
#[derive(Clone, Copy)]
pub struct Line {
    pub percent: u32,
    pub cap: u32,
    pub floor: i32,
    ghost inside: { in_range percent «cap» floor ≡ true },
}
