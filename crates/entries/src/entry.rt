// An entry as it stands in a file.
ghost use Rattle.std.specs.Prelude.{◌≡◌};
ghost use Rattle.bodies.specs.Bodies.{parameter_fault as fault_of_parameter};
ghost use Rattle.entries.specs.Entries.{raw, raw_of};
ghost use Rattle.bodies.specs.Faults.{Reads, fault_of};
ghost use Rattle.entries.specs.Files.{head_fault as fault_of_head, body_fault as fault_of_body};
ghost use Rattle.entries.specs.Table.{kinds};

use crate::head::Head;
use bodies::amounts::{read_amount, read_price, read_quantity};
use bodies::fault::Fault;
use bodies::lines::read_line;
use bodies::remarks::check_remark;
use bodies::standings::read_standing;
use bodies::steps::check_curve;

// The numbers that name the slot, the part of the file that is the body, and the offset of the entry.
#[derive(Clone, Copy)]
pub enum Entry<'a> {
    Line {
        condition: u8,
        test: u8,
        body: &'a [u8],
        place: usize,
    },
    Standing {
        resource: u8,
        body: &'a [u8],
        place: usize,
    },
    Offer {
        resource: u8,
        parameter: u8,
        body: &'a [u8],
        place: usize,
    },
    Reference {
        resource: u8,
        parameter: u8,
        body: &'a [u8],
        place: usize,
    },
    Quantity {
        resource: u8,
        product: u8,
        body: &'a [u8],
        place: usize,
    },
    Price {
        resource: u8,
        run: u8,
        body: &'a [u8],
        place: usize,
    },
    Remark {
        resource: u8,
        body: &'a [u8],
        place: usize,
    },
}

fn check_parameter(parameter: u8, body: &[u8]) -> Result<(), Fault>
    ensures { fault_of result ≡ fault_of_parameter parameter body.now }
{
    match parameter {
        0..=3 => check_curve(parameter, body),
        _ => read_amount(parameter, body).map(|_| ()),
    }
}

impl<'a> Entry<'a> {
    // The entry of a slot, whatever its body says, or the fault of its head.
    pub fn with_head(head: Head, body: &'a [u8], place: usize) -> Result<Entry<'a>, Fault>
        ensures { Reads (fault_of_head kinds head) (λ e. raw_of e ≡ raw head body.now place) result }
    {
        head.check()?;
        Ok(match head.kind {
            1 => Entry::Line {
                condition: head.first,
                test: head.sub,
                body,
                place,
            },
            2 => Entry::Standing {
                resource: head.first,
                body,
                place,
            },
            3 => Entry::Offer {
                resource: head.first,
                parameter: head.sub,
                body,
                place,
            },
            4 => Entry::Reference {
                resource: head.first,
                parameter: head.sub,
                body,
                place,
            },
            5 => Entry::Quantity {
                resource: head.first,
                product: head.sub,
                body,
                place,
            },
            6 => Entry::Price {
                resource: head.first,
                run: head.sub,
                body,
                place,
            },
            _ => Entry::Remark {
                resource: head.first,
                body,
                place,
            },
        })
    }

    // Refuses a body that its entry's kind does not have.
    pub fn check_body(self) -> Result<(), Fault>
        ensures { fault_of result ≡ fault_of_body kinds (raw_of self.entry).head (raw_of self.entry).body }
    {
        match self {
            Entry::Line { test, body, .. } => read_line(test, body).map(|_| ()),
            Entry::Standing { body, .. } => read_standing(body).map(|_| ()),
            Entry::Offer {
                parameter,
                body,
                ..
            }
            | Entry::Reference {
                parameter,
                body,
                ..
            } => check_parameter(parameter, body),
            Entry::Quantity { body, .. } => read_quantity(body).map(|_| ()),
            Entry::Price { body, .. } => read_price(body).map(|_| ()),
            Entry::Remark { body, .. } => check_remark(body),
        }
    }
}
