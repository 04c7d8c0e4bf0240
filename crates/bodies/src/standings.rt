// The body of a standing.
ghost use Rattle.std.specs.Prelude.{◌≡◌};
ghost use Rattle.bodies.specs.Bodies.{standing_of, standing_bytes, standing_fault};
ghost use Rattle.bodies.specs.Faults.{Reads};

use crate::fault::Fault;
use vocabulary::standing::Standing;

pub fn read_standing(body: &[u8]) -> Result<Standing, Fault>
    ensures { Reads (standing_fault body.now) (λ s. (s ≡ standing_of body.now) × (standing_bytes s ≡ body.now)) result }
{
    match body {
        [
            entity @ 0..=15,
            multiplier @ 1..=9,
            energy @ 0..=16,
            spinning @ 0..=16,
            non_spinning @ 0..=16,
            thirty_minute @ 0..=16,
        ] => Ok(Standing {
            entity: *entity,
            multiplier: *multiplier,
            energy: *energy,
            spinning: *spinning,
            non_spinning: *non_spinning,
            thirty_minute: *thirty_minute,
        }),
        [_, _, _, _, _, _] => Err(Fault::Range),
        _ => Err(Fault::Length),
    }
}
