//! The second operand of an element-wise instruction ("V" Vector Extension 1.0, sections 5.2 and 11.1).
ghost use Rattle.std.specs.Prelude.{◌≡◌, ◌*◌, ◌%◌, ◌^◌, ◌<◌, ◌≤◌, ℕ, false, length};
ghost use Rattle.rv_model.specs.elements.Elements.{element};
ghost use Rattle.rv_model.specs.vector.Groups.{registers, width_bytes};
ghost use Rattle.rv_model.specs.lending.GroupBounds.{SourceIsInside};
ghost use Rattle.rv_model.specs.elements.Arithmetic.{second_element};
ghost use Rattle.rv_model.specs.elements.Formulas.{immediate_value};
ghost use Rattle.lane_arith.specs.SecondElements.{HasNumber, number_at};
ghost use Rattle.std.specs.Int.{Width};
ghost use Rattle.vec_unit.specs.InPlace.{second_number};
ghost use mir.Val.{bits};

use lane_arith::{Lane, SecondElements, fill};
use reg_groups::{group, group_copy};
use rv_model::{Field, GROUP_BYTES, RoundingMode, Scalar, Source, VFile, VLENB, VReg};

/// An operation on the group at `vs2` and a second operand.
#[derive(Clone, Copy)]
pub(crate) struct WithSources<O> {
    pub op: O,
    pub vs2: VReg,
    pub source: Source,
}

/// The group at `vs2` and a second operand.
#[derive(Clone, Copy)]
pub(crate) struct Sources {
    pub vs2: VReg,
    pub source: Source,
}

/// An operation on the group at `vs2` and a second operand.
#[inline(always)]
pub(crate) fn on<O: Copy>(op: O, vs2: VReg, source: Source) -> WithSources<O>
    ensures { result ≡ record { op = op; vs2 = vs2; source = source } }
{
    WithSources { op, vs2, source }
}

/// An operation and its rounding mode.
#[derive(Clone, Copy)]
pub(crate) struct WithRounding<O> {
    pub op: O,
    pub mode: RoundingMode,
}

/// The number of a 5-bit immediate, zero-extended if `unsigned`, else sign-extended.
pub(crate) fn immediate_value(unsigned: bool, imm: Field<5>) -> u64
    ensures { result ≡ immediate_value unsigned imm }
{
    let value = u64::from(imm.value());
    if unsigned || value < 1 << 4 {
        value
    } else {
        value.wrapping_sub(1 << 5)
    }
}

/// The number of a second operand that is a scalar or an immediate; 0 if it is a vector.
#[inline(always)]
pub(crate) fn second_number(unsigned: bool, source: Source, scalar: &Scalar) -> u64
    ensures { result ≡ second_number unsigned source scalar.now }
{
    match source {
        Source::V(_) => 0,
        Source::X(rs1) => scalar.read(rs1),
        Source::I(imm) => immediate_value(unsigned, imm),
    }
}

/// The low bits of a number as each of `count` elements.
fn repeated<L: Lane>(number: u64, count: usize, copy: &mut [u8; GROUP_BYTES]) -> &[u8]
    requires room { width_bytes L.width * count ≤ GROUP_BYTES }
    requires count { count ≤ GROUP_BYTES }
    ensures elements { (i : ℕ) → i < count → element (width_bytes L.width) result.now i ≡ number % 2 ^ bits L.width }
    ensures len { length result.now ≡ GROUP_BYTES }
{
    fill(L::low_bits(number), 0, count, copy);
    copy
}

/// A second operand, whether its immediate is unsigned, and the multiplier of its group in eighths of a register.
#[derive(Clone, Copy)]
pub(crate) struct SecondOperand {
    pub source: Source,
    pub unsigned: bool,
    pub emul: u32,
}

/// A second operand whose immediate is signed.
pub(crate) fn signed_operand(source: Source, emul: u32) -> SecondOperand
    ensures { result ≡ record { source = source; unsigned = false; emul = emul } }
{
    SecondOperand {
        source,
        unsigned: false,
        emul,
    }
}

/// The elements of a second operand, borrowed from the register file, or its one number.
pub(crate) fn second_elements<'a>(
    operand: SecondOperand,
    file: &'a VFile,
    scalar: &Scalar,
) -> SecondElements<'a>
    requires inside { SourceIsInside operand.source operand.emul }
    ensures numbers { (w : Width) (i : ℕ) → number_at w result i
        ≡ second_element (record { width = w; emul = operand.emul }) operand.unsigned operand.source file.now
        scalar.now i }
    ensures room { (w : Width) (count i : ℕ) → width_bytes w * count ≤ VLENB * registers operand.emul → i < count
        → HasNumber w result i }
{
    let source = operand.source;
    match source {
        Source::V(vs1) => SecondElements::of(group(file, vs1, operand.emul)),
        _ => SecondElements::repeated(second_number(operand.unsigned, source, scalar)),
    }
}

/// A copy of the first `count` elements of a second operand.
pub(crate) fn second_copy<'a, L: Lane>(
    operand: SecondOperand,
    count: usize,
    file: &VFile,
    scalar: &Scalar,
    copy: &'a mut [u8; GROUP_BYTES],
) -> &'a [u8]
    requires inside { SourceIsInside operand.source operand.emul }
    requires most { operand.emul ≤ 64 }
    requires room { width_bytes L.width * count ≤ VLENB * registers operand.emul }
    requires count { count ≤ GROUP_BYTES }
    ensures elements { (i : ℕ) → i < count → element (width_bytes L.width) result.now i
        ≡ second_element (record { width = L.width; emul = operand.emul }) operand.unsigned operand.source file.now
        scalar.now i }
    ensures room { width_bytes L.width * count ≤ length result.now }
{
    let source = operand.source;
    match source {
        Source::V(vs1) => group_copy(file, vs1, operand.emul, copy),
        _ => repeated::<L>(second_number(operand.unsigned, source, scalar), count, copy),
    }
}

/// The first `count` elements of a second operand: borrowed from the register file if it is a vector, else copies
/// of its number.
pub(crate) fn second_in_place<'a, L: Lane>(
    operand: SecondOperand,
    count: usize,
    file: &'a VFile,
    scalar: &Scalar,
    copy: &'a mut [u8; GROUP_BYTES],
) -> &'a [u8]
    requires inside { SourceIsInside operand.source operand.emul }
    requires most { operand.emul ≤ 64 }
    requires room { width_bytes L.width * count ≤ VLENB * registers operand.emul }
    requires count { count ≤ GROUP_BYTES }
    ensures elements { (i : ℕ) → i < count → element (width_bytes L.width) result.now i
        ≡ second_element (record { width = L.width; emul = operand.emul }) operand.unsigned operand.source file.now
        scalar.now i }
    ensures room { width_bytes L.width * count ≤ length result.now }
{
    let source = operand.source;
    match source {
        Source::V(vs1) => group(file, vs1, operand.emul),
        _ => repeated::<L>(second_number(operand.unsigned, source, scalar), count, copy),
    }
}
