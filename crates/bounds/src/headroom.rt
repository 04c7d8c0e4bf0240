// Distances from the reference, a hundred times over so that a percent stays whole.
ghost use Rattle.std.specs.Prelude.{◌≡◌, pos, ◌-ℤ◌, ◌*ℤ◌};
ghost use Rattle.bounds.specs.Meanings.{headroom as headroom_of};

use crate::line::Line;

pub fn headroom(line: &Line, reference: i32) -> i64
    ensures { result ≡ pos (headroom_of line.now reference) }
{
    let most = 100 * u64::from(line.cap);
    let share = u64::from(line.percent) * reference.max(0) as u64;
    most.min(share) as i64
}

// How far `high` is above `low`.
pub fn excess(high: i32, low: i32) -> i64
    ensures { result ≡ pos 100 *ℤ (high -ℤ low) }
{
    100 * (i64::from(high) - i64::from(low))
}
