// The lines and the resources of an hour.
use vocabulary::lines::Lines;
use vocabulary::resource::Resource;

#[derive(Clone, Copy)]
pub struct Table {
    pub lines: Lines,
    pub resources: [Resource; 32],
}
