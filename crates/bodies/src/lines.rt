// The body of a line.
ghost use Rattle.std.specs.Prelude.{◌≡◌};
ghost use Rattle.bodies.specs.Bodies.{terms_of, terms_bytes, in_terms_range, line_fault};
ghost use Rattle.bodies.specs.Faults.{Reads};

use crate::fault::Fault;
use crate::numbers::{read_number, read_word};
use vocabulary::lines::Terms;

fn in_range(test: u8, terms: &Terms) -> bool
    ensures { result ≡ in_terms_range test terms.now }
{
    matches!(
        (test, terms.percent, terms.cap, terms.floor),
        (0 | 1, 0..=1_000, 0..=100_000_000, -10_000..=200_000)
            | (2.., 0..=1_000, 0..=100_000_000, 0)
    )
}

pub fn read_line(test: u8, body: &[u8]) -> Result<Terms, Fault>
    ensures { Reads (line_fault test body.now) (λ t. (t ≡ terms_of body.now) × (terms_bytes t ≡ body.now)) result }
{
    if body.len() != 12 {
        return Err(Fault::Length);
    }
    let terms = Terms {
        percent: read_word(body, 0),
        cap: read_word(body, 4),
        floor: read_number(body, 8),
    };
    if in_range(test, &terms) {
        Ok(terms)
    } else {
        Err(Fault::Range)
    }
}
