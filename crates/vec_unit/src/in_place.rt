//! A faster path for operations whose operands and results have the same width: one register after another, without
//! copies of the operands ("V" Vector Extension 1.0, sections 3.4.2, 5.2 and chapter 11).
ghost use Rattle.std.specs.Prelude.{◌≡◌, ◌+◌, ◌*◌, ◌%◌, ◌^◌, ◌<◌, ◌/◌, ◌≤◌, ◌==◌, IsTrue, ℕ, false, length, not, true};
ghost use Rattle.lane_arith.specs.SimdOperations.{is_simd};
ghost use Rattle.rv_model.specs.elements.Elements.{is_active, is_changed, result_or_ones};
ghost use Rattle.rv_model.specs.elements.Formulas.{ones};
ghost use Rattle.rv_model.specs.lending.Writes.{Writes};
ghost use Rattle.rv_model.specs.vector.Groups.{width_bytes};
ghost use Rattle.vec_unit.specs.InPlace.{
  IsInTurn,
  IsReadBeforeWrite,
  SourceHasRegisters,
  SourceIsReadFirst,
  number_from,
  second_in,
  test_from,
  in_place_result,
  with_binary_results,
};
ghost use mir.Val.{bits};

use crate::binary::has_unsigned_immediate;
use crate::destination::Destination;
use crate::operands::{WithSources, second_number};
use lane_arith::chunk::{is_simd, simd_results};
use lane_arith::{Body, Lane, active_bits, chunk_elements, enabled_bits, filled_bits, put_results};
use reg_groups::{group_mut, registers};
use rv_model::instructions::operations::BinaryOp;
use rv_model::{FILE_BYTES, GROUP_BYTES, Scalar, Source, VECTOR_REGISTERS, VFile, VLENB, VReg};

/// Whether each of the `registers` registers starting at `read` is read before it is written, if those starting at
/// `written` are written one after another.
#[inline(always)]
pub(crate) fn is_read_first(read: VReg, written: VReg, registers: u32) -> bool
    requires { registers ≤ VECTOR_REGISTERS }
    ensures { result ≡ true → IsReadBeforeWrite read written registers }
{
    let (read, written) = (read.number(), written.number());
    written <= read || read + registers <= written
}

/// The same test for the registers of a second operand, if it is a vector.
#[inline(always)]
pub(crate) fn is_source_read_first(source: Source, written: VReg, registers: u32) -> bool
    requires { registers ≤ VECTOR_REGISTERS }
    ensures { result ≡ true → SourceIsReadFirst source written registers }
{
    match source {
        Source::V(vs1) => is_read_first(vs1, written, registers),
        _ => true,
    }
}

/// `active_bits`. If `all`, the elements are in the body, and only the mask is tested.
#[inline(always)]
fn active_in_turn(all: bool, body: &Body<'_>, first: usize, count: usize) -> u64
    requires all { all ≡ true → (body.now.start ≡ 0) × (first + count ≤ body.now.end) }
    requires word { first % 32 + count ≤ 32 }
    requires inside { first + count ≤ GROUP_BYTES }
    requires some { 0 < count }
    ensures { (i : ℕ) → i < count → (result / 2 ^ i % 2 == 0) ≡ not (is_active body.now (first + i)) }
{
    if all {
        enabled_bits(body, first, count)
    } else {
        active_bits(body, first, count)
    }
}

/// An operation on the group that starts with `vs2` and a second operand, to the group that starts with `vd`.
/// `number` is the second operand if it is a scalar or an immediate.
#[derive(Clone, Copy)]
pub(crate) struct InPlace {
    pub op: BinaryOp,
    pub vd: VReg,
    pub vs2: VReg,
    pub source: Source,
    pub number: u64,
}

impl InPlace {
    /// The elements of a register of the second operand, as a SIMD vector.
    #[inline(always)]
    fn second<L: Lane>(&self, register: usize, bytes: &[u8]) -> L::Vector
        requires inside { SourceHasRegisters self.now.source (register + 1) }
        requires whole { length bytes.now ≡ FILE_BYTES }
        ensures value { (i : ℕ) → i < L.count → L.lane result i
            ≡ second_in (width_bytes L.width) L.count self.now.source (self.now.number % 2 ^ bits L.width) bytes.now
            (L.count * register + i) }
        ensures bound { (i : ℕ) → i < L.count → L.lane result i < 2 ^ bits L.width }
    {
        match self.source {
            Source::V(vs1) => chunk_elements::<L>(bytes, vs1.number() as usize + register),
            Source::X(_) => L::repeated(L::low_bits(self.number)),
            Source::I(_) => L::repeated(L::low_bits(self.number)),
        }
    }

    /// Write the results to the `registers` registers starting at `vd`, one after another, so that each register of
    /// the operands is read before it is written. `bytes` are those of all registers. If `all`, the body is all
    /// elements of these registers.
    #[inline(always)]
    pub(crate) fn write<L: Lane>(
        &self,
        registers: usize,
        body: &Body<'_>,
        all: bool,
        fill_masked_off: bool,
        bytes: &mut [u8],
    )
        requires all { all ≡ true → (body.now.start ≡ 0) × (body.now.end ≡ L.count * registers) }
        requires made { IsTrue (is_simd self.now.op) }
        requires first { self.now.vs2 + registers ≤ VECTOR_REGISTERS }
        requires second { SourceHasRegisters self.now.source registers }
        requires destination { self.now.vd + registers ≤ VECTOR_REGISTERS }
        requires first_read { IsReadBeforeWrite self.now.vs2 self.now.vd registers }
        requires second_read { SourceIsReadFirst self.now.source self.now.vd registers }
        requires few { L.count * registers ≤ GROUP_BYTES }
        requires covers { body.now.end ≤ L.count * registers }
        requires whole { length bytes.old ≡ FILE_BYTES }
        ensures { Writes (width_bytes L.width)
            (test_from (L.count * self.now.vd) (is_changed body.now fill_masked_off false))
            (number_from (L.count * self.now.vd) (result_or_ones body.now
            (in_place_result L.width L.count self.now.op self.now.vs2 self.now.source self.now.number bytes.old)
            (ones L.width))) bytes.old bytes.new }
    {
        let count = L::count();
        let (first, vd) = (self.vs2.number() as usize, self.vd.number() as usize);
        for r in 0..registers {
            let a = chunk_elements::<L>(bytes, first + r);
            let b = self.second::<L>(r, bytes);
            let made = simd_results::<L>(self.op, a, b);
            let active = active_in_turn(all, body, count * r, count);
            let filled = filled_bits(body, fill_masked_off, count * r, count);
            put_results::<L>(made, active, filled, VLENB * (vd + r), bytes);
        }
    }
}

impl WithSources<BinaryOp> {
    /// Whether the results can be written to the `size` registers starting at `vd` one after another: SIMD
    /// instructions compute them, and each register of the operands is read before it is written.
    #[inline(always)]
    pub(crate) fn is_in_turn(&self, vd: VReg, size: u32) -> bool
        requires { size ≤ VECTOR_REGISTERS }
        ensures made { result ≡ true → IsTrue (is_simd self.now.op) }
        ensures first { result ≡ true → IsReadBeforeWrite self.now.vs2 vd size }
        ensures second { result ≡ true → SourceIsReadFirst self.now.source vd size }
    {
        is_simd(self.op)
            && is_read_first(self.vs2, vd, size)
            && is_source_read_first(self.source, vd, size)
    }

    /// Write the results one register after another. If `all`, the body is all elements of the destination.
    #[inline(always)]
    fn write_in_turn<L: Lane>(
        &self,
        all: bool,
        destination: Destination,
        body: &Body<'_>,
        file: &mut VFile,
        scalar: &Scalar,
    )
        requires all { all ≡ true → (body.now.start ≡ 0) × (body.now.end ≡ destination.count) }
        requires in_place { IsInTurn L.width self.now destination body.now }
        ensures { file.new ≡ with_binary_results L.width self.now destination body.now file.old scalar.now }
    {
        let unsigned = has_unsigned_immediate(self.op);
        let operation = InPlace {
            op: self.op,
            vd: destination.vd,
            vs2: self.vs2,
            source: self.source,
            number: second_number(unsigned, self.source, scalar),
        };
        let size = registers(destination.emul) as usize;
        let used = if all {
            size
        } else {
            size.min(body.end().div_ceil(L::count()))
        };
        let bytes = group_mut(file, VReg::new(0), 8 * 32);
        let fill_masked_off = destination.fill_masked_off;
        operation.write::<L>(used, body, all, fill_masked_off, bytes);
    }

    /// Write the results one register after another, for any body.
    #[inline(never)]
    fn write_part_in_turn<L: Lane>(
        self,
        destination: Destination,
        body: &Body<'_>,
        file: &mut VFile,
        scalar: &Scalar,
    )
        requires in_place { IsInTurn L.width self destination body.now }
        ensures { file.new ≡ with_binary_results L.width self destination body.now file.old scalar.now }
    {
        self.write_in_turn::<L>(false, destination, body, file, scalar);
    }

    /// Write the results one register after another, for a masked body that is all elements of the destination.
    /// Masked-off elements are unchanged.
    #[inline(never)]
    fn write_masked_in_turn<L: Lane>(
        self,
        destination: Destination,
        body: &Body<'_>,
        file: &mut VFile,
        scalar: &Scalar,
    )
        requires full { (body.now.start ≡ 0) × (body.now.end ≡ destination.count) }
        requires masked { body.now.unmasked ≡ false }
        requires kept { destination.fill_masked_off ≡ false }
        requires in_place { IsInTurn L.width self destination body.now }
        ensures { file.new ≡ with_binary_results L.width self destination body.now file.old scalar.now }
    {
        let all = Body::new(false, body.mask(), 0, body.end());
        self.write_in_turn::<L>(
            true,
            destination.with_masked_off_unchanged(),
            &all,
            file,
            scalar,
        );
    }

    /// Write the results one register after another. The case in which all elements of the destination are active
    /// is inlined. Functions that aren't inlined get copies, so that the destination and the body themselves need
    /// no place in memory.
    #[inline(always)]
    pub(crate) fn write_all<L: Lane>(
        &self,
        destination: Destination,
        body: &Body<'_>,
        file: &mut VFile,
        scalar: &Scalar,
    )
        requires in_place { IsInTurn L.width self.now destination body.now }
        ensures { file.new ≡ with_binary_results L.width self.now destination body.now file.old scalar.now }
    {
        let keeps = !destination.fill_masked_off;
        if !(body.start() == 0 && body.end() == destination.count && keeps) {
            let destination = Destination { ..destination };
            (*self).write_part_in_turn::<L>(destination, &body.copied(), file, scalar);
        } else if body.is_unmasked() {
            let all = Body::new(true, body.mask(), 0, body.end());
            self.write_in_turn::<L>(
                true,
                destination.with_masked_off_unchanged(),
                &all,
                file,
                scalar,
            );
        } else {
            let destination = Destination { ..destination };
            (*self).write_masked_in_turn::<L>(destination, &body.copied(), file, scalar);
        }
    }
}
