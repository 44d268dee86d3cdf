ghost use Rattle.std.specs.Prelude.{◌≡◌, ◌*◌, IfOk, length, vec_len, if◌then◌else◌};
ghost use Rattle.wf_model.specs.Bytes.{slab_bytes, char_bytes};
ghost use Rattle.wf_model.specs.Sizes.{rounded};

use crate::padding::put_padded;
use byteorder::{BigEndian, ByteOrder};
use std::alloc::{AllocError, Global};

/// The bytes of a slab of whole numbers: four bytes for each, the highest first. It has no padding,
/// since its length is a multiple of four. The rule is the netCDF classic format's, for the
/// type int.
#[tactic(auto, unfolding(wf_model::specs::Bytes::slab_bytes))]
pub fn write_slab(alloc: Global, values: &[i32]) -> Result<Vec<u8>, AllocError>
    ensures bytes { IfOk result (λ v. v.items ≡ slab_bytes values.now) }
    ensures length { IfOk result (λ v. vec_len v ≡ 4 * length values.now) }
{
    let mut bytes = vec![in alloc; 0; 4 * values.len()]?;
    BigEndian::write_i32_into(values, &mut bytes);
    Ok(bytes)
}

/// The bytes of a text, with zero bytes up to a multiple of four where it is `padded`. The netCDF
/// classic format pads each variable, and each record's part of one, but where the only record
/// variable is a byte, char or short.
pub fn write_chars(alloc: Global, text: &[u8], padded: bool) -> Result<Vec<u8>, AllocError>
    ensures bytes { IfOk result (λ v. v.items ≡ char_bytes padded text.now) }
    ensures length { IfOk result
        (λ v. vec_len v ≡ (if padded then rounded (length text.now) else length text.now)) }
{
    let mut bytes = Vec::new(alloc);
    if padded {
        put_padded(&mut bytes, text)?;
    } else {
        bytes.extend_from_slice(text)?;
    }
    Ok(bytes)
}
