//! Texts in the caller's memory.
ghost use Rattle.std.specs.Prelude.{◌≡◌, ◌≢◌, ◌⊎◌, None, IsOkAnd, string_bytes};
ghost use Rattle.argus_c.specs.declared.codes.Code.TheVariants as code;
ghost use Rattle.argus_c.specs.Writing.{IsFound, IsTooSmall, IsWritten};

use crate::codes::Code;
use std::alloc::AllocError;

/// Writes the text to the start of the place, if it fits, and tells its length.
pub(crate) fn written(text: &[u8], place: &mut [u8], len: &mut usize) -> Code
    ensures done { result ≡ code.Done → IsWritten text.now place.old place.new len.new }
    ensures small { result ≡ code.Small → IsTooSmall text.now place.old len.new }
    ensures same { result ≡ code.Small → place.new ≡ place.old }
    ensures code { (result ≡ code.Done) ⊎ (result ≡ code.Small) }
{
    *len = text.len();
    if place.len() < text.len() {
        return Code::Small;
    }
    let (start, _) = place.split_at_mut(text.len());
    start.copy_from_slice(text);
    Code::Done
}

/// Writes the text that was found, if any.
pub(crate) fn write_found(
    found: Result<Option<String>, AllocError>,
    place: &mut [u8],
    len: &mut usize,
) -> Code
    ensures done { result ≡ code.Done → IsFound found
        (λ text. IsWritten (string_bytes text) place.old place.new len.new) }
    ensures small { result ≡ code.Small → IsFound found
        (λ text. IsTooSmall (string_bytes text) place.old len.new) }
    ensures nothing { result ≡ code.Nothing → IsOkAnd found (λ found. found ≡ None) }
    ensures unwritten { result ≢ code.Done → place.new ≡ place.old }
    ensures untold { result ≢ code.Done → result ≢ code.Small → len.new ≡ len.old }
    ensures code { (result ≡ code.Done) ⊎ (result ≡ code.Small) ⊎ (result ≡ code.Nothing)
        ⊎ (result ≡ code.Memory) }
{
    match found {
        Ok(Some(text)) => written(text.as_str().as_bytes(), place, len),
        Ok(None) => Code::Nothing,
        Err(_) => Code::Memory,
    }
}
