//! Complete writes.
ghost use Rattle.std.specs.Prelude.{◌≡◌, ℕ, ◌<◌, List, [], length, take, IfErr, OnOk, OnErr};
ghost use Rattle.devices.specs.Device.{Rose};
ghost use Rattle.devices.specs.declared.writing.TextFault.TheVariants.{NoMemory, Unwritten};

use crate::device::{DeviceFault, Sink};
use std::alloc::Global;
use std::fmt::Display;

/// Write all bytes, or fail after accepting a proper prefix of them.
pub fn write_all<K: Sink>(sink: &mut K, bytes: &[u8]) -> Result<(), DeviceFault>
    ensures ok { OnOk result (K.took sink.old bytes.now sink.new) }
    ensures unfailed { OnOk result (K.failures sink.new ≡ K.failures sink.old) }
    ensures cause { OnErr result (Rose (K.failures sink.old) (K.failures sink.new)) }
    ensures part { OnErr result ((n : ℕ) × ((n < length bytes.now)
        × K.took sink.old (take n bytes.now) sink.new)) }
{
    let mut at = 0;
    while at < bytes.len() {
        at += sink.write(&bytes[at..])?;
    }
    Ok(())
}

/// The error of writing a text.
#[derive(Clone, Copy, Debug, PartialEq, Eq)]
pub enum TextFault {
    /// The sink failed.
    Unwritten,
    NoMemory,
}

/// Write the text of a value. If memory runs out, nothing is written.
pub fn write_text<K: Sink, D: Display + Drop>(
    alloc: Global,
    sink: &mut K,
    value: D,
) -> Result<(), TextFault>
    ensures printed { (text : List ℕ) × K.took sink.old text sink.new }
    ensures unwritten { IfErr result (λ fault. fault ≡ Unwritten → Rose (K.failures sink.old) (K.failures sink.new)) }
    ensures nothing { IfErr result (λ fault. fault ≡ NoMemory → K.took sink.old [] sink.new) }
{
    let Ok(text) = format!(in alloc; "{value}") else {
        return Err(TextFault::NoMemory);
    };
    match write_all(sink, text.as_bytes()) {
        Ok(()) => Ok(()),
        Err(_) => Err(TextFault::Unwritten),
    }
}
