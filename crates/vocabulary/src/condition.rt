// Conditions of an area: narrow, dynamic and broad constrained area, global market power, uncompetitive intertie zone.
ghost use Rattle.std.specs.Prelude.{◌≡◌};
ghost use Rattle.vocabulary.specs.Numbers.{condition_number};
ghost use Rattle.vocabulary.specs.Conditions.{lowest as lowest_of, outside_zones as outside_zones_of, in_zone as in_zone_of};

#[derive(Clone, Copy, PartialEq, Eq)]
pub enum Condition {
    Narrow,
    Dynamic,
    Broad,
    GlobalPower,
    Intertie,
}

// By number.
const ALL: [Condition; 5] = [
    Condition::Narrow,
    Condition::Dynamic,
    Condition::Broad,
    Condition::GlobalPower,
    Condition::Intertie,
];

impl Condition {
    pub fn number(self) -> usize
        ensures { result ≡ condition_number self }
    {
        self as usize
    }

    // The lowest-numbered condition of a set.
    pub fn lowest(set: u8) -> Option<Condition>
        ensures { result ≡ lowest_of set }
    {
        ALL.iter()
            .copied()
            .find(|condition| (set >> condition.number()) % 2 == 1)
    }

    // The condition, unless it is an uncompetitive intertie zone.
    pub fn outside_zones(condition: Option<Condition>) -> Option<Condition>
        ensures { result ≡ outside_zones_of condition }
    {
        condition.filter(|c| *c != Condition::Intertie)
    }

    pub fn in_zone(condition: Option<Condition>) -> bool
        ensures { result ≡ in_zone_of condition }
    {
        condition == Some(Condition::Intertie)
    }
}
