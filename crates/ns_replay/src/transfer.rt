//! All the bytes of a source, and all the bytes to a sink.

ghost use Rattle.std.specs.Prelude.{◌≡◌, IfErr, OnOk, OnErr, IsErrOf, true, false};
ghost use Rattle.std.specs.Io.KnownBytes.{Appends};
ghost use Rattle.ns_replay.specs.Prelude.{Collects, Counts, Gave, IsAskedEnough, IsEnough, IsFine, IsReadFault, IsWriteFault, WritesFront, ends_for};

use crate::fault::Fault;
use crate::path::ScriptPath;
use crate::streams::{Got, Sink, Source};
use std::alloc::Global;

/// How many bytes a script may have.
const MAX_BYTES: usize = 1_048_576;

/// How often a source is asked.
const MAX_READS: u32 = 2_097_152;

/// How many bytes a source is asked for.
const PIECE: usize = 4096;

/// All the bytes of a source. It is asked for no more as soon as too many have come, and never
/// again after its end.
pub fn collect_bytes<S: Source>(alloc: Global, source: &mut S) -> Result<Vec<u8>, Fault>
    requires { S.has_failed source.old ≡ false }
    ensures bytes { Gave (S.to_come source.old) (S.to_come source.new) (λ bytes.
        IsEnough bytes (S.last source.new) × Collects bytes (S.to_come source.new) result) }
    ensures asked { IsAskedEnough (S.asked source.old) (S.asked source.new) }
    ensures ended { Counts (S.ends source.old) (S.ends source.new) (ends_for result) }
    ensures read_fault { IsErrOf result Fault.Read → IsReadFault (S.has_failed source.new) (S.asked source.old) (S.asked source.new) }
    ensures failed { S.has_failed source.new ≡ true → IsErrOf result Fault.Read }
{
    let mut bytes = Vec::new(alloc);
    let mut buffer = [0u8; PIECE];
    for _ in 0..MAX_READS {
        match source.read(&mut buffer) {
            Got::Bytes(0) => return Ok(bytes),
            Got::Bytes(n) => {
                bytes.extend_from_slice(&buffer[..n])?;
                if bytes.len() > MAX_BYTES {
                    return Err(Fault::TooMany(ScriptPath::Root));
                }
            }
            Got::Interrupted => {}
            Got::Failed => return Err(Fault::Read),
        }
    }
    Err(Fault::Read)
}

/// Writes all of the bytes, or a front of them.
pub fn write_all<W: Sink>(sink: &mut W, bytes: &[u8]) -> Result<(), Fault>
    requires { W.has_failed sink.old ≡ false }
    ensures ok { OnOk result (Appends (W.taken sink.old) (W.taken sink.new) bytes.now) }
    ensures fine { OnOk result (IsFine (W.has_failed sink.new) (W.stuck sink.old) (W.stuck sink.new)) }
    ensures err { OnErr result (WritesFront (W.taken sink.old) (W.taken sink.new) bytes.now) }
    ensures fault { IfErr result (λ fault. (fault ≡ Fault.Write) × IsWriteFault (W.has_failed sink.new) (W.stuck sink.old) (W.stuck sink.new)) }
{
    let mut rest = bytes;
    while !rest.is_empty() {
        match sink.write(rest) {
            None | Some(0) => return Err(Fault::Write),
            Some(n) => rest = &rest[n..],
        }
    }
    Ok(())
}
