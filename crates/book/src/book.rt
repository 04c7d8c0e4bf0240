// One dispatch hour, and the bounds that its offers are held to.
use table::hour::Table;

#[derive(Drop)]
pub struct Book<R> {
    pub table: Table,
    pub is_open: bool,
    pub rules: R,
}
