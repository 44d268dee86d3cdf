ghost use Rattle.std.specs.Prelude.{◌≡◌, ◌-◌, ◌%◌, ◌++◌, OnOk};
ghost use Rattle.wf_model.specs.Bytes.{padded};

use std::alloc::AllocError;

/// The zero bytes after so many bytes, up to a multiple of four.
pub(crate) fn padding_of(length: usize) -> usize
    ensures { result ≡ (4 - length % 4) % 4 }
{
    (4 - length % 4) % 4
}

/// Appends a text and its padding.
pub(crate) fn put_padded(out: &mut Vec<u8>, text: &[u8]) -> Result<(), AllocError>
    ensures { OnOk result (out.new.items ≡ out.old.items ++ padded text.now) }
{
    out.extend_from_slice(text)?;
    for _i in 0..padding_of(text.len()) {
        out.push(0)?;
    }
    Ok(())
}
