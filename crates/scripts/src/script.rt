// A script of calls, with the bytes of all of them in one store.
ghost use Rattle.std.specs.Prelude.{◌≡◌, true, length};
ghost use Rattle.scripts.specs.Ranges.{all_within};

use crate::scripted::Scripted;

// Each call's part lies within the store.
#[derive(Drop)]
pub struct Script {
    pub(crate) bytes: Vec<u8>,
    pub(crate) calls: Vec<Scripted>,
    ghost inside: { all_within (length bytes.items) calls.items ≡ true },
}
