// The calls of a script.
ghost use Rattle.std.specs.Prelude.{◌≡◌, true, map, length, IfOk};
ghost use Rattle.scripts.specs.Ranges.{taken_from, within};
ghost use Rattle.scripts.specs.Scripts.{calls_in, said_by, At};

use crate::script::Script;
use crate::scripted::Scripted;
use histories::call::Call;
use std::alloc::{AllocError, Global};

// A call with its bytes, a part of the script's store.
fn in_store(call: Scripted, store: &[u8]) -> Call<'_>
    requires { within (length store.now) call ≡ true }
    ensures { said_by result ≡ taken_from store.now call }
{
    match call {
        Scripted::Post { from, to } => Call::Post(&store[from..to]),
        Scripted::Load { from, to } => Call::Load(&store[from..to]),
        Scripted::Clear { kind, first, sub } => Call::Clear { kind, first, sub },
        Scripted::Close => Call::Close,
    }
}

impl Script {
    pub fn len(&self) -> usize
        ensures { result ≡ length (calls_in self.now) }
    {
        self.calls.len()
    }

    // The call at an index, none behind the last.
    pub fn get(&self, index: usize) -> Option<Call<'_>>
        ensures { At (calls_in self.now) index result }
    {
        let call = self.calls.get(index)?;
        Some(in_store(*call, self.bytes.as_slice()))
    }

    // All the calls, in order.
    pub fn list(&self, heap: Global) -> Result<Vec<Call<'_>>, AllocError>
        ensures { IfOk result (λ v. map said_by v.items ≡ calls_in self.now) }
    {
        let mut list = Vec::new(heap);
        for call in &self.calls {
            list.push(in_store(*call, self.bytes.as_slice()))?;
        }
        Ok(list)
    }
}
