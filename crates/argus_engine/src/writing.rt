//! Writing answers whole, or a beginning of them where the writer fails.

ghost use Rattle.std.specs.Prelude.{◌≡◌, ◌≤◌, ◌<◌, [], length, take, IfErr, IfOk, OnOk, OnErr, string_bytes};
ghost use Rattle.std.specs.Io.KnownBytes.{Appends, Keeps};
ghost use Rattle.argus_engine.specs.declared.engine.Fault.TheVariants.{Output};
ghost use Rattle.argus_engine.specs.Reading.{Moves};
ghost use Rattle.argus_engine.specs.Serving.{TakesFront};

use crate::engine::Fault;
use std::io::{ErrorKind, Write};

/// How many bytes of answers are kept before they are written.
const BUFFER_SIZE: usize = 8192;

/// Writes the text and empties it, where it is long enough. After a fault it is empty, and a beginning of it was
/// written.
#[tactic(auto, using(crate::proofs::Progressed::moves_all, crate::proofs::Progressed::moves_none))]
pub(crate) fn send_if_full<W: Write>(writer: &mut W, text: &mut String) -> Result<(), Fault>
    ensures ok { OnOk result (Moves (W.contents writer.old) (W.contents writer.new)
        (string_bytes text.old) (string_bytes text.new)) }
    ensures err { OnErr result
        (TakesFront (W.contents writer.old) (W.contents writer.new) (string_bytes text.old)
        × (string_bytes text.new ≡ [])) }
    ensures small { OnOk result (length (string_bytes text.new) < 8192) }
    ensures kept { length (string_bytes text.old) < 8192
        → string_bytes text.new ≡ string_bytes text.old }
    ensures fault { IfErr result (λ fault. fault ≡ Output) }
{
    if text.len() < BUFFER_SIZE {
        return Ok(());
    }
    let written = write_bytes(writer, text.as_bytes());
    text.clear();
    written
}

/// Writes the text and flushes the writer. After a fault of the writer a beginning of the text was written; there is no
/// other.
#[tactic(auto, using(crate::proofs::Bytes::flushed, crate::proofs::Bytes::not_flushed))]
pub fn finish<W: Write>(writer: &mut W, text: &str) -> Result<(), Fault>
    ensures ok { OnOk result (Appends (W.contents writer.old) (W.contents writer.new) text.now) }
    ensures front { TakesFront (W.contents writer.old) (W.contents writer.new) text.now }
    ensures fault { IfErr result (λ fault. fault ≡ Output) }
{
    write_bytes(writer, text.as_bytes())?;
    match writer.flush() {
        Ok(()) => Ok(()),
        Err(_) => Err(Fault::Output),
    }
}

#[tactic(auto, using(crate::proofs::Bytes::wrote_all, crate::proofs::Bytes::wrote_more, crate::proofs::Bytes::within_more, crate::proofs::Bytes::wrote_none, crate::proofs::Bytes::wrote_front))]
fn write_bytes<W: Write>(writer: &mut W, bytes: &[u8]) -> Result<(), Fault>
    ensures ok { OnOk result (Appends (W.contents writer.old) (W.contents writer.new) bytes.now) }
    ensures err { OnErr result
        (TakesFront (W.contents writer.old) (W.contents writer.new) bytes.now) }
    ensures fault { IfErr result (λ fault. fault ≡ Output) }
{
    let mut count = 0;
    for _ in 0..u64::MAX {
        if count == bytes.len() {
            return Ok(());
        }
        count += write_some(writer, &bytes[count..])?;
    }
    Err(Fault::Output)
}

/// Writes a beginning of the bytes, and nothing where a signal interrupts.
#[tactic(auto, using(crate::proofs::Bytes::took_none, crate::proofs::Bytes::gave_none))]
fn write_some<W: Write>(writer: &mut W, bytes: &[u8]) -> Result<usize, Fault>
    ensures within { IfOk result (λ count. count ≤ length bytes.now) }
    ensures ok { IfOk result
        (λ count. Appends (W.contents writer.old) (W.contents writer.new) (take count bytes.now)) }
    ensures err { OnErr result (Keeps (W.contents writer.old) (W.contents writer.new)) }
    ensures fault { IfErr result (λ fault. fault ≡ Output) }
{
    match writer.write(bytes) {
        Ok(0) => Err(Fault::Output),
        Ok(count) => Ok(count),
        Err(error) if error.kind() == ErrorKind::Interrupted => Ok(0),
        Err(_) => Err(Fault::Output),
    }
}
