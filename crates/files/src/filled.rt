// What is written of a full slot.
use curves::row::Row;
use entries::head::Head;
use vocabulary::lines::Terms;
use vocabulary::resource::Remark;
use vocabulary::standing::Standing;

// A full slot, with the numbers that name it.
#[derive(Clone, Copy)]
pub enum Filled {
    Line {
        condition: u8,
        test: u8,
        terms: Terms,
    },
    Standing {
        resource: u8,
        standing: Standing,
    },
    Curve {
        head: Head,
        row: Row,
    },
    Number {
        head: Head,
        value: i32,
    },
    Quantity {
        resource: u8,
        product: u8,
        tenths: u32,
    },
    Remark {
        resource: u8,
        remark: Remark,
    },
}
