// A listing's letters and numbers in words.
use std::fmt;

// An amount in twentieths of a cent, which is shown in dollars.
#[derive(Clone, Copy)]
pub struct Owed {
    pub twentieths: u64,
}

impl fmt::Display for Owed {
    fn fmt<W: fmt::Write>(&self, f: &mut fmt::Formatter<W>) -> fmt::Result {
        let dollars = self.twentieths / 2_000;
        let cents = self.twentieths / 20 % 100;
        match self.twentieths % 20 {
            0 => write!(f, "${dollars}.{cents:02}"),
            rest => write!(f, "${dollars}.{cents:02} and {rest}/20 of a cent"),
        }
    }
}

// What the letter at an offset of a line is the verdict on.
pub fn subject(offset: usize) -> Option<&'static str> {
    match offset {
        3 => Some("conduct of the energy offer"),
        4 => Some("conduct of the 10S offer"),
        5 => Some("conduct of the 10N offer"),
        6 => Some("conduct of the 30R offer"),
        7 => Some("conduct of the start-up cost"),
        8 => Some("conduct of the speed no-load cost"),
        9 => Some("conduct of the minimum run time"),
        10 => Some("conduct of the ramp rate"),
        12 => Some("impact on the energy price"),
        13 => Some("impact on the 10S price"),
        14 => Some("impact on the 10N price"),
        15 => Some("impact on the 30R price"),
        17 => Some("quantity of energy"),
        18 => Some("quantity of 10S"),
        19 => Some("quantity of 10N"),
        20 => Some("quantity of 30R"),
        22 => Some("entity's quantity of energy"),
        23 => Some("entity's quantity of 10S"),
        24 => Some("entity's quantity of 10N"),
        25 => Some("entity's quantity of 30R"),
        27 => Some("impact of the quantity on the energy price"),
        28 => Some("impact of the quantity on the 10S price"),
        29 => Some("impact of the quantity on the 10N price"),
        30 => Some("impact of the quantity on the 30R price"),
        _ => None,
    }
}

pub fn verdict(letter: u8) -> &'static str {
    match letter {
        b'P' => "passed",
        b'F' => "failed",
        _ => "not tested",
    }
}

// The charge that ends a line.
pub fn owed_in(line: &[u8]) -> Owed {
    let mut twentieths = 0u64;
    for byte in line.iter().skip(32) {
        if byte.is_ascii_digit() {
            twentieths = twentieths
                .saturating_mul(10)
                .saturating_add(u64::from(*byte - b'0'));
        }
    }
    Owed { twentieths }
}
