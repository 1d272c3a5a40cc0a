ghost use Rattle.std.specs.Prelude.{◌≡◌, IfOk};
ghost use Rattle.recsplit_index.specs.Spelling.{laid_out};

use agg_outside::Memory;
use file_numbers::{put_numbers, put_u32, put_u64};
use std::alloc::Global;

/// `AGH1`.
pub(crate) const MAGIC: u32 = 0x4147_4831;

/// The bytes of an accessor with these parts.
#[tactic(auto, unfolding(crate::specs::Spelling::laid_out))]
pub(crate) fn lay_out(
    alloc: Global,
    form: u8,
    salt: u8,
    starts: &[u64],
    offsets: &[u64],
    text: &[u8],
) -> Result<Vec<u8>, Memory>
    ensures { IfOk result (λ v. v.items ≡ laid_out form salt starts.now offsets.now text.now) }
{
    let numbers = starts.len().saturating_add(offsets.len());
    let room = numbers.saturating_mul(8).saturating_add(text.len());
    let mut out = Vec::with_capacity(alloc, room.saturating_add(16))?;
    put_u32(&mut out, MAGIC)?;
    out.extend_from_slice(&[form, salt, 0, 0])?;
    put_u64(&mut out, offsets.len() as u64)?;
    put_numbers(&mut out, starts)?;
    put_numbers(&mut out, offsets)?;
    out.extend_from_slice(text)?;
    Ok(out)
}
