// Bodies as bytes.
ghost use Rattle.std.specs.Prelude.{◌≡◌};
ghost use Rattle.bodies.specs.Bodies.{terms_of, terms_bytes, standing_of, standing_bytes as bytes_of_standing};
ghost use Rattle.bodies.specs.Curves.{step_bytes as bytes_of_step};

use bodies::numbers::{number_bytes, word_bytes};
use curves::step::Step;
use vocabulary::lines::Terms;
use vocabulary::standing::Standing;

pub fn line_bytes(terms: &Terms) -> [u8; 12]
    ensures bytes { result ≡ terms_bytes terms.now }
    ensures back { terms_of result ≡ terms.now }
{
    let [a, b, c, d] = word_bytes(terms.percent);
    let [e, f, g, h] = word_bytes(terms.cap);
    let [i, j, k, l] = number_bytes(terms.floor);
    [a, b, c, d, e, f, g, h, i, j, k, l]
}

pub fn standing_bytes(standing: &Standing) -> [u8; 6]
    ensures bytes { result ≡ bytes_of_standing standing.now }
    ensures back { standing_of result ≡ standing.now }
{
    [
        standing.entity,
        standing.multiplier,
        standing.energy,
        standing.spinning,
        standing.non_spinning,
        standing.thirty_minute,
    ]
}

pub fn step_bytes(step: Step) -> [u8; 8]
    ensures { result ≡ bytes_of_step step }
{
    let [a, b, c, d] = number_bytes(step.price);
    let [e, f, g, h] = word_bytes(step.end);
    [a, b, c, d, e, f, g, h]
}
