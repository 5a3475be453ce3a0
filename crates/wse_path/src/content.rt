// The content of files, copied and compared.
ghost use Rattle.std.specs.Prelude.{◌≡◌, IfOk};
ghost use Rattle.std.specs.Option.{option_copied};
ghost use Rattle.wse_path.specs.Changes.{is_same};

use crate::items::Bytes;
use crate::memory::Memory;
use std::alloc::Global;

/// A copy of these bytes.
pub fn copy_bytes(alloc: Global, bytes: &[u8]) -> Result<Bytes, Memory>
    ensures { IfOk result (λ copy. copy ≡ bytes.now) }
{
    Ok(Bytes::new(bytes.to_vec(alloc)?))
}

/// A copy of the content, which isn't there where it is None.
pub fn copy_content(alloc: Global, content: Option<&[u8]>) -> Result<Option<Bytes>, Memory>
    ensures { IfOk result (λ copy. copy ≡ option_copied content.entry) }
{
    match content {
        Some(bytes) => Ok(Some(copy_bytes(alloc, bytes)?)),
        None => Ok(None),
    }
}

/// The content as a slice, where it is there. Takes no memory.
pub fn content_slice(content: &Option<Bytes>) -> Option<&[u8]>
    ensures { option_copied result ≡ content.now }
{
    match content {
        Some(bytes) => Some(bytes.as_slice()),
        None => None,
    }
}

/// Whether both are the same content, absence included. Takes no memory.
pub fn is_same_content(first: Option<&[u8]>, second: Option<&[u8]>) -> bool
    ensures { result ≡ is_same (option_copied first.entry) (option_copied second.entry) }
{
    match (first, second) {
        (None, None) => true,
        (Some(first), Some(second)) => first == second,
        _ => false,
    }
}
