// The laws of slots, entry files and ledgers: each function's contract is a theorem.
#![tactic(auto)]

ghost use Rattle.ledger.specs.Laws.{Places, Reached, Reloads, Injective, Bounded, BySections, Views};
ghost use Rattle.ledger.specs.Listing.{EqualListings, NeighboursLines};
ghost use Rattle.ledger.specs.Promises.{Read, Mitigates, EqualMeanings, Neighbours};

// Heads and slots name each other.
pub fn places_stand() -> u8
    ensures { Places }
{
    0
}

// Every ledger is well formed, and its file says all of it.
pub fn ledgers_stand() -> u8
    ensures reached { Reached }
    ensures reloads { Reloads }
    ensures injective { Injective }
{
    0
}

// Files have a greatest length, and are drawn part by part.
pub fn files_stand() -> u8
    ensures bounded { Bounded }
    ensures sections { BySections }
{
    0
}

// Slots can be given by what each head holds.
pub fn views_stand() -> u8
    ensures { Views }
{
    0
}

// What is held is read.
pub fn readings_stand() -> u8
    ensures { Read }
{
    0
}

// Mitigated slots are slots, differ where the rules say, and are mitigated already.
pub fn mitigation_stands() -> u8
    ensures { Mitigates }
{
    0
}

// Bounds with equal meanings find the same.
pub fn meanings_stand() -> u8
    ensures { EqualMeanings }
{
    0
}

// A call for one resource leaves those that share no entity with it.
pub fn neighbours_stand() -> u8
    ensures { Neighbours }
{
    0
}

// The lines of the listing: equal meanings draw the same, and neighbours' lines stay.
pub fn listings_stand() -> u8
    ensures meanings { EqualListings }
    ensures neighbours { NeighboursLines }
{
    0
}
