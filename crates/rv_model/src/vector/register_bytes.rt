//! The bytes of one vector register.
ghost use Rattle.std.specs.Prelude.{◌≡◌, length};
ghost use Rattle.rv_model.specs.commands.Arguments.{register_bytes};

use crate::vector::sizes::VLENB;
use std::marker::Model;

/// The 32 bytes of a vector register, byte 0 first ("V" Vector Extension 1.0, section 3.1, VLEN
/// 256).
#[derive(Drop)]
pub struct RegisterBytes {
    bytes: [u8; VLENB],
}

impl Model for RegisterBytes {
    ghost use Rattle.std.specs.Prelude.{List, ℕ};

    ghost Value = { List ℕ };

    ghost view = { λ b. b.bytes };
}

impl RegisterBytes {
    /// Return a register value with these bytes.
    pub fn new(bytes: &[u8; VLENB]) -> RegisterBytes
        ensures { result ≡ bytes.now }
    {
        RegisterBytes { bytes: *bytes }
    }

    /// Return the bytes of exactly 64 hexadecimal digits, or `None` for any other text.
    pub fn from_hex(text: &[u8]) -> Option<RegisterBytes>
        ensures { result ≡ register_bytes text.now }
    {
        let mut bytes = [0; VLENB];
        match hex::decode_to_slice(text, &mut bytes) {
            Ok(()) => Some(RegisterBytes { bytes }),
            Err(_) => None,
        }
    }

    /// Return the bytes as an array.
    pub fn as_array(&self) -> &[u8; VLENB]
        ensures { result.now ≡ self.now }
    {
        &self.bytes
    }

    /// Return the bytes as a slice.
    pub fn as_slice(&self) -> &[u8]
        ensures value { result.now ≡ self.now }
        ensures size { length result.now ≡ VLENB }
    {
        self.as_array()
    }
}
