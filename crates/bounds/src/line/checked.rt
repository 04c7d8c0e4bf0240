// Lines made from numbers that may be out of range.
ghost use Rattle.std.specs.Prelude.{◌≡◌};
ghost use Rattle.bounds.specs.Lines.{line_of};
ghost use Rattle.bounds.specs.Ranges.{in_range};

use super::Line;

fn in_range(percent: u32, cap: u32, floor: i32) -> bool
    ensures { result ≡ in_range percent «cap» floor }
{
    percent <= 1000 && cap <= 100_000_000 && (-10_000..=200_000).contains(&floor)
}

impl Line {
    // The line of these numbers, or none where one of them is out of its range.
    pub fn new(percent: u32, cap: u32, floor: i32) -> Option<Line>
        ensures { result ≡ line_of percent «cap» floor }
    {
        if in_range(percent, cap, floor) {
            Some(Line {
                percent,
                cap,
                floor,
            })
        } else {
            None
        }
    }
}
