// The body of a remark.
ghost use Rattle.std.specs.Prelude.{◌≡◌, length};
ghost use Rattle.bodies.specs.Bodies.{remark_bytes, remark_fault};
ghost use Rattle.bodies.specs.Faults.{fault_of, Reads};

use crate::fault::Fault;
use vocabulary::resource::Remark;

// Refuses a body that no remark has.
pub fn check_remark(body: &[u8]) -> Result<(), Fault>
    ensures { fault_of result ≡ remark_fault body.now }
{
    match body.len() {
        1..=120 => Ok(()),
        _ => Err(Fault::Length),
    }
}

pub fn read_remark(body: &[u8]) -> Result<Remark, Fault>
    ensures { Reads (remark_fault body.now) (λ remark. (remark.count ≡ length body.now) × (remark_bytes remark ≡ body.now)) result }
{
    check_remark(body)?;
    let count = body.len();
    let mut bytes = [0; 120];
    bytes[..count].copy_from_slice(body);
    Ok(Remark { bytes, count })
}
