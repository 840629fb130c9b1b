//! Operands of kernels: bytes of elements, and masks.
ghost use Rattle.std.specs.Prelude.{◌<◌, ◌≤◌};

/// Size in bytes of 65 elements of the greatest width.
pub(crate) const LONGEST: usize = 520;

/// A mask with some bits set.
pub(crate) const MIXED: [u8; 32] = [
    0x96, 0x3d, 0x00, 0xff, 0x5a, 0x01, 0x80, 0xe7, 0x9c, 0x55, 0x0f, 0x96, 0x3d, 0x00, 0xff, 0x5a,
    0x01, 0x80, 0xe7, 0x9c, 0x55, 0x0f, 0x96, 0x3d, 0x00, 0xff, 0x5a, 0x01, 0x80, 0xe7, 0x9c, 0x55,
];

/// Another mask with some bits set.
pub(crate) const BITS: [u8; 32] = [
    0x0f, 0xc3, 0xff, 0x00, 0x99, 0x5a, 0x7e, 0x18, 0xe1, 0x3c, 0x66, 0xb7, 0x0f, 0xc3, 0xff, 0x00,
    0x99, 0x5a, 0x7e, 0x18, 0xe1, 0x3c, 0x66, 0xb7, 0x0f, 0xc3, 0xff, 0x00, 0x99, 0x5a, 0x7e, 0x18,
];

/// A mask without set bits.
pub(crate) const NO_MASK: [u8; 32] = [0; 32];

/// A mask with all bits set.
pub(crate) const ALL: [u8; 32] = [0xff; 32];

/// The bytes of elements: `a` of vs2, `b` of the second operand, `d` of the destination before the operation.
#[derive(Drop)]
pub(crate) struct Operands {
    pub(crate) a: [u8; LONGEST],
    pub(crate) b: [u8; LONGEST],
    pub(crate) d: [u8; LONGEST],
}

/// Kinds of numbers in the elements.
#[derive(Clone, Copy)]
pub(crate) enum Inputs {
    /// Numbers of every kind. Some blocks of 8 bytes are the least number, the greatest, 0 or -1 of each width. At some
    /// index, `a` is the least number and `b` is -1; at others, `b` is 0.
    Any,
    /// The same; every third block of 8 bytes is equal in both operands.
    Near,
    /// Small numbers, so that few sums of them saturate: one byte in 24 may be large.
    Small,
    /// Any numbers, and indices of this size in bytes. The indices are below 80, and 64 and 65 are among them; one in
    /// nine is much larger.
    Indices(usize),
}

impl Operands {
    /// The operands with elements of this kind.
    pub(crate) fn of(inputs: Inputs) -> Operands {
        let (a, b) = (bytes(3), bytes(5));
        let (any_a, any_b) = (with_limits(&a, 0, 8), with_limits(&b, 4, 7));
        let (a, b) = match inputs {
            Inputs::Any => (any_a, any_b),
            Inputs::Near => (any_a, mixed(&any_a, &any_b)),
            Inputs::Small => (mostly_small(&a), mostly_small(&b)),
            Inputs::Indices(size) => (a, indices(&bytes(9), size.max(1))),
        };
        Operands { a, b, d: bytes(7) }
    }
}

/// Bytes that differ from one another in many bits.
fn bytes(seed: u64) -> [u8; LONGEST] {
    let mut bytes = [0; LONGEST];
    let mut number = seed;
    for byte in bytes.iter_mut() {
        number = number
            .wrapping_mul(6364136223846793005)
            .wrapping_add(1442695040888963407);
        *byte = (number >> 56) as u8;
    }
    bytes
}

/// A byte of a block that is a limit of each width (by `kind`: least, 0, -1, greatest), or `other`.
fn limit(kind: usize, is_last: bool, other: u8) -> u8 {
    match kind {
        1 => { if is_last { 0x80 } else { 0 } }
        3 => 0,
        5 => 0xff,
        6 => { if is_last { 0x7f } else { 0xff } }
        _ => other,
    }
}

/// The bytes with some blocks of 8 bytes replaced by limits; the kinds of the blocks repeat with a period.
fn with_limits(bytes: &[u8; LONGEST], first: usize, period: usize) -> [u8; LONGEST]
    requires few { first ≤ 8 }
    requires some { 0 < period }
{
    let mut made = *bytes;
    for i in 0..LONGEST {
        made[i] = limit((i / 8 + first) % period, i % 8 == 7, bytes[i]);
    }
    made
}

/// The bytes of `b`, with every third block of 8 bytes copied from `a`.
fn mixed(a: &[u8; LONGEST], b: &[u8; LONGEST]) -> [u8; LONGEST] {
    let mut made = *b;
    for i in 0..LONGEST {
        if i / 8 % 3 == 0 {
            made[i] = a[i];
        }
    }
    made
}

/// The bytes reduced to numbers below 64, except one in 24.
fn mostly_small(bytes: &[u8; LONGEST]) -> [u8; LONGEST] {
    let mut made = *bytes;
    for i in 0..LONGEST {
        if i % 24 != 23 {
            made[i] %= 64;
        }
    }
    made
}

/// A byte of an index. Of nine indices, one has all bits set, one is 65, one is 64, and the others are small.
fn index_byte(kind: usize, is_first: bool, small: u8) -> u8 {
    match (kind, is_first) {
        (8, _) => 0xff,
        (_, false) => 0,
        (7, true) => 65,
        (6, true) => 64,
        (_, true) => small,
    }
}

/// Indices of `size` bytes, which are small except one in nine.
fn indices(bytes: &[u8; LONGEST], size: usize) -> [u8; LONGEST]
    requires { 0 < size }
{
    let mut made = [0; LONGEST];
    for i in 0..LONGEST {
        made[i] = index_byte(i / size % 9, i % size == 0, bytes[i] % 80);
    }
    made
}
