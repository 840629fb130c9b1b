//! Which register operands one instruction may have together ("V" Vector Extension 1.0, sections 3.4.2, 5.2 and
//! 5.3).
ghost use Rattle.std.specs.Prelude.{◌≡◌, true};
ghost use Rattle.rv_model.specs.legality.RegisterOperands.{allows, eew, end, is_group, is_width, may_overlap};
ghost use Rattle.rv_model.specs.legality.RegisterOperands.{overlaps};

use crate::groups::registers;
use rv_model::{Content, Operand, Role, VECTOR_REGISTERS};

/// The effective element width (EEW) in bits; 1 for a mask.
#[inline(always)]
fn eew(content: Content) -> u16
    ensures { result ≡ eew content }
{
    match content {
        Content::Mask => 1,
        Content::Elements(bits) => bits,
    }
}

/// Whether elements have 8 to 64 bits.
#[inline(always)]
fn is_width(content: Content) -> bool
    ensures { result ≡ is_width content }
{
    match content {
        Content::Mask => true,
        Content::Elements(bits) => 8 <= bits && bits <= 64,
    }
}

/// The number of the register after the operand's last one.
#[inline(always)]
fn end(operand: &Operand) -> u64
    ensures { result ≡ end operand.now }
{
    u64::from(operand.first.number())
        + u64::from(operand.fields) * u64::from(registers(operand.emul))
}

/// Whether an operand is a legal group: elements have 8 to 64 bits, the multiplier is 1/8 to 8 and, for all fields
/// together, at most 8. The first register is aligned, and the last one exists.
#[inline(always)]
pub(crate) fn is_group(operand: &Operand) -> bool
    ensures { result ≡ is_group operand.now }
{
    is_width(operand.content)
        && 1 <= operand.emul
        && operand.emul <= 64
        && u64::from(operand.emul) * u64::from(operand.fields) <= 64
        && operand.first.number() % registers(operand.emul) == 0
        && end(operand) <= VECTOR_REGISTERS as u64
}

/// Whether the two operands have a register in common.
#[inline(always)]
fn overlaps(one: &Operand, other: &Operand) -> bool
    ensures { result ≡ overlaps one.now other.now }
{
    u64::from(one.first.number().max(other.first.number())) < end(one).min(end(other))
}

/// Whether a destination may overlap a source (section 5.2).
#[inline(always)]
fn may_overlap(destination: &Operand, source: &Operand) -> bool
    ensures { result ≡ may_overlap destination.now source.now }
{
    let width = eew(destination.content);
    let other = eew(source.content);
    if width == other {
        true
    } else if width < other {
        destination.first.number() == source.first.number()
    } else {
        8 <= source.emul && end(destination) == end(source)
    }
}

/// Whether the two operands don't overlap, or may overlap in their roles. The test depends on the order:
/// `destination` is the written operand.
#[inline(always)]
pub(crate) fn allows(destination: &Operand, other: &Operand) -> bool
    ensures { result ≡ allows destination.now other.now }
{
    match (destination.role, other.role) {
        (Role::Write, Role::Read) => {
            !overlaps(destination, other) || may_overlap(destination, other)
        }
        (Role::Write, Role::Control) => {
            !overlaps(destination, other) || matches!(destination.content, Content::Mask)
        }
        (Role::Apart, Role::Read) | (Role::Apart, Role::Control) => !overlaps(destination, other),
        _ => true,
    }
}
