//! Numbers printed into a reply.
ghost use Rattle.std.specs.Prelude.{◌≡◌, ◌++◌, ◌+◌, ◌*◌, ◌≤◌, length, decimal, flat_map};
ghost use Rattle.hex.specs.Hex.{encode_lower};
ghost use Rattle.rv_model.specs.commands.Printing.{hex8, hex16, listed};

use crate::reply::Reply;
use itoa::Buffer;

/// Append `number` as 16 lowercase hexadecimal digits, most significant first.
#[tactic(auto, unfolding(rv_model::specs::commands::Printing::hex16))]
pub fn push_hex16(reply: &mut Reply, number: u64)
    requires { length reply.old + 16 ≤ 4096 }
    ensures text { reply.new ≡ reply.old ++ hex16 number }
    ensures bound { length reply.new ≡ length reply.old + 16 }
{
    let mut digits = [0; 16];
    let _ = hex::encode_to_slice(number.to_be_bytes(), &mut digits);
    reply.push(&digits);
}

/// Append a 32-bit word as 8 lowercase hexadecimal digits, most significant first.
#[tactic(auto, unfolding(rv_model::specs::commands::Printing::hex8))]
pub fn push_hex8(reply: &mut Reply, word: u32)
    requires { length reply.old + 8 ≤ 4096 }
    ensures text { reply.new ≡ reply.old ++ hex8 word }
    ensures bound { length reply.new ≡ length reply.old + 8 }
{
    let mut word_digits = [0; 8];
    let _ = hex::encode_to_slice(word.to_be_bytes(), &mut word_digits);
    reply.push(&word_digits);
}

/// Append a decimal number of at most 20 digits.
pub fn push_decimal(reply: &mut Reply, number: u64)
    requires { length reply.old + 20 ≤ 4096 }
    ensures text { reply.new ≡ reply.old ++ decimal number }
    ensures bound { length reply.new ≤ length reply.old + 20 }
{
    reply.push(Buffer::new().format(number).as_bytes());
}

/// Append at most 1,024 bytes, each as two lowercase hexadecimal digits.
pub fn push_bytes(reply: &mut Reply, bytes: &[u8])
    requires few { length bytes.now ≤ 1024 }
    requires room { length reply.old + 2 * length bytes.now ≤ 4096 }
    ensures text { reply.new ≡ reply.old ++ encode_lower bytes.now }
    ensures bound { length reply.new ≡ length reply.old + 2 * length bytes.now }
{
    let mut digits = [0; 2048];
    let size = 2 * bytes.len();
    let _ = hex::encode_to_slice(bytes, &mut digits[..size]);
    reply.push(&digits[..size]);
}

/// Append addresses, each as a space and 16 hexadecimal digits.
#[tactic(auto, unfolding(rv_model::specs::commands::Printing::listed))]
pub fn push_addresses(reply: &mut Reply, addresses: &[u64])
    requires { length reply.old + 17 * length addresses.now ≤ 4096 }
    ensures text { reply.new ≡ reply.old ++ flat_map listed addresses.now }
    ensures bound { length reply.new ≡ length reply.old + 17 * length addresses.now }
{
    for addr in addresses {
        reply.push(b" ");
        push_hex16(reply, *addr);
    }
}
