//! Legality of instructions, by independent rules ("V" Vector Extension 1.0, sections 3.4, 3.7, 5.2, 5.3, 7.8 and 11 to
//! 16, and docs/DECISIONS.md where these leave a choice).
use crate::shapes::{Elements, Part, Shape, Sharing};

/// A vector type by exponents of two: SEW is 2^`sew` bits (`sew` 3 to 6), and LMUL is 2^`multiplier` / 8 (0 to 6).
#[derive(Clone, Copy, Drop)]
pub(crate) struct TypeRead {
    pub sew: i32,
    pub multiplier: i32,
}

/// The vector type of a vtype value below 256; `None` if it isn't supported.
pub(crate) fn type_read(request: u64) -> Option<TypeRead> {
    let multiplier = match request % 8 {
        0 => 3,
        1 => 4,
        2 => 5,
        3 => 6,
        5 => 0,
        6 => 1,
        7 => 2,
        _ => return None,
    };
    let sew = match request / 8 % 8 {
        0 => 3,
        1 => 4,
        2 => 5,
        3 => 6,
        _ => return None,
    };
    // SEW is at most LMUL x ELEN, and ELEN is 64 bits.
    if sew <= multiplier + 3 {
        Some(TypeRead { sew, multiplier })
    } else {
        None
    }
}

/// VLMAX in elements: 256 x LMUL / SEW.
pub(crate) fn greatest_length(vtype: TypeRead) -> u64 {
    match vtype.multiplier.wrapping_sub(vtype.sew) {
        -3 => 4,
        -2 => 8,
        -1 => 16,
        0 => 32,
        1 => 64,
        2 => 128,
        3 => 256,
        _ => 0,
    }
}

/// The registers of an operand from `first` up to `end`, which is excluded. Its elements have 2^`width` bits, and
/// `is_whole` says whether its group has at least one whole register.
#[derive(Clone, Copy, Drop)]
struct Registers {
    first: u32,
    end: u32,
    width: i32,
    is_whole: bool,
}

/// The number of registers in a group with the multiplier 2^`multiplier` / 8; `None` if that isn't from 1/8 to 8.
fn register_count(multiplier: i32) -> Option<u32> {
    match multiplier {
        0..=3 => Some(1),
        4 => Some(2),
        5 => Some(4),
        6 => Some(8),
        _ => None,
    }
}

/// The registers of an operand; `None` if they aren't legal.
fn registers_of(part: Part, vtype: TypeRead) -> Option<Registers> {
    let grown = vtype.multiplier.wrapping_sub(vtype.sew);
    let (width, multiplier, count) = match part.elements {
        Elements::Sew(power) => {
            let width = vtype.sew.wrapping_add(power);
            let multiplier = vtype.multiplier.wrapping_add(power);
            (width, multiplier, register_count(multiplier)?)
        }
        Elements::Bits(width) => {
            let multiplier = grown.wrapping_add(width);
            (width, multiplier, register_count(multiplier)?)
        }
        Elements::Mask => (0, 3, 1),
        Elements::One(power) => (vtype.sew.wrapping_add(power), 3, 1),
        Elements::Whole(count) => (vtype.sew, 3, count),
    };
    let is_width = part.elements == Elements::Mask || (3 <= width && width <= 6);
    let all = count.wrapping_mul(part.fields);
    let end = part.first.wrapping_add(all);
    let is_aligned = part.first.checked_rem(count) == Some(0);
    if is_width && is_aligned && all <= 8 && end <= 32 {
        let is_whole = multiplier >= 3;
        Some(Registers {
            first: part.first,
            end,
            width,
            is_whole,
        })
    } else {
        None
    }
}

/// Whether the overlap of a destination with a source, if any, is legal.
fn may_share(to: Registers, source: Option<Registers>, sharing: Sharing) -> bool {
    let Some(source) = source else {
        return true;
    };
    if to.end <= source.first || source.end <= to.first {
        return true;
    }
    match sharing {
        Sharing::Any => true,
        Sharing::Apart => false,
        _ if to.width == source.width => true,
        _ if to.width < source.width => to.first == source.first,
        _ => source.is_whole && to.end == source.end,
    }
}

/// Whether an instruction with v0 as its mask may write this destination.
fn may_be_masked(to: Registers, sharing: Sharing) -> bool {
    to.first != 0 || sharing == Sharing::Any || sharing == Sharing::ByWidthOrMask
}

/// Whether the operands of instructions are legal together; `None` if one of them has no legal registers.
fn are_legal(shape: &Shape, masked: bool, vtype: TypeRead) -> Option<bool> {
    let [first, second] = shape.sources;
    let first = match first {
        Some(part) => Some(registers_of(part, vtype)?),
        None => None,
    };
    let second = match second {
        Some(part) => Some(registers_of(part, vtype)?),
        None => None,
    };
    let Some(part) = shape.destination else {
        return Some(true);
    };
    let to = registers_of(part, vtype)?;
    let shares = may_share(to, first, shape.sharing) && may_share(to, second, shape.sharing);
    Some(shares && (!masked || may_be_masked(to, shape.sharing)))
}

/// Whether instructions are legal with a vector type, or without one (vill), and with a vstart.
pub(crate) fn is_legal(shape: &Shape, masked: bool, vtype: Option<TypeRead>, vstart: u8) -> bool {
    if shape.begins_at_zero && vstart != 0 {
        return false;
    }
    match vtype {
        // Without a type, SEW and LMUL have no effect; any supported ones do, such as SEW 8 and LMUL 1.
        None if !shape.is_typed => {
            let any = TypeRead {
                sew: 3,
                multiplier: 3,
            };
            are_legal(shape, masked, any) == Some(true)
        }
        None => false,
        Some(vtype) if shape.is_below_64 && vtype.sew == 6 => false,
        Some(vtype) => are_legal(shape, masked, vtype) == Some(true),
    }
}
