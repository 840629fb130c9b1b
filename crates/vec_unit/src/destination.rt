//! The destination of an element-wise instruction: a kernel borrows it for its results, then agnostic elements are
//! filled ("V" Vector Extension 1.0, sections 3.4.3, 5.3 and 5.4).
ghost use Rattle.std.specs.Prelude.{◌≡◌, ◌*◌, ◌<◌, ◌≤◌, ◌^◌, ℕ, false, if◌then◌else◌, length, true};
ghost use Rattle.rv_model.specs.elements.Arithmetic.{fills_masked_off, fills_tail, with_results};
ghost use Rattle.rv_model.specs.elements.Elements.{is_changed, result_or_ones};
ghost use Rattle.rv_model.specs.elements.Formulas.{ones};
ghost use Rattle.rv_model.specs.lending.Writes.{Writes};
ghost use Rattle.rv_model.specs.lending.GroupBounds.{HoldsBody, IsInside};
ghost use Rattle.rv_model.specs.vector.Groups.{lmul_eighths, registers, width_bytes};
ghost use Rattle.vec_unit.specs.Agnostic.{is_agnostic};

use lane_arith::{Body, Lane, Results, fill, write_results};
use reg_groups::{group_mut, registers};
use rv_model::{GROUP_BYTES, Policy, VFile, VLENB, VReg, VType};

/// The destination register of an instruction, whether the instruction is unmasked, and the vector type and policy
/// of its execution.
#[derive(Clone, Copy)]
pub(crate) struct Target {
    pub vd: VReg,
    pub vtype: VType,
    pub unmasked: bool,
    pub policy: Policy,
}

impl Target {
    /// Return the target with these fields.
    pub(crate) fn new(vd: VReg, unmasked: bool, vtype: VType, policy: Policy) -> Target
        ensures { result ≡ record { vd = vd; unmasked = unmasked; vtype = vtype; policy = policy } }
    {
        Target {
            vd,
            unmasked,
            vtype,
            policy,
        }
    }

    /// Return the destination's registers for a body.
    #[inline(always)]
    pub(crate) fn registers(self, body: &Body<'_>) -> DestinationRegisters
        ensures { result ≡ record {
          vd = self.vd;
          emul = lmul_eighths self.vtype.lmul;
          registers = registers (lmul_eighths self.vtype.lmul);
          fill_masked_off = fills_masked_off self.policy self.vtype body.now;
          fill_tail = fills_tail self.policy self.vtype body.now;
        } }
    {
        let emul = u32::from(self.vtype.lmul.eighths());
        let agnostic = agnostic_under(self.policy, self.vtype, body);
        DestinationRegisters {
            vd: self.vd,
            emul,
            registers: registers(emul) as usize,
            fill_masked_off: agnostic.fill_masked_off,
            fill_tail: agnostic.fill_tail,
        }
    }

    /// Return the same target, unmasked.
    pub(crate) fn whole_body(self) -> Target
        ensures { result ≡ record self { unmasked = true } }
    {
        Target {
            unmasked: true,
            ..self
        }
    }
}

/// The treatment of agnostic elements: whether the masked-off elements of the body, and the tail, become all ones
/// (section 3.4.3).
#[derive(Clone, Copy)]
pub(crate) struct Agnostic {
    pub fill_masked_off: bool,
    pub fill_tail: bool,
}

/// Return the treatment of agnostic elements under a policy and a vector type.
pub(crate) fn agnostic_under(policy: Policy, vtype: VType, body: &Body<'_>) -> Agnostic
    ensures { result ≡ record {
      fill_masked_off = fills_masked_off policy vtype body.now;
      fill_tail = fills_tail policy vtype body.now;
    } }
{
    let is_ones = match policy {
        Policy::Keep => false,
        Policy::Ones => true,
    };
    Agnostic {
        fill_masked_off: is_ones && (vtype.mask_agnostic && !body.is_unmasked()),
        fill_tail: is_ones && (vtype.tail_agnostic && body.start() < body.end()),
    }
}

/// The destination of an operation: its first register, the multiplier of its groups in eighths of a register, and
/// the number of elements in a group. The flags say whether the masked-off elements of the body, and the tail,
/// become all ones. The flags aren't in a struct of their own, since the compiler would combine its bytes to pass
/// it on.
#[derive(Clone, Copy)]
pub(crate) struct Destination {
    pub vd: VReg,
    pub emul: u32,
    pub count: usize,
    pub fill_masked_off: bool,
    pub fill_tail: bool,
}

/// The registers of a destination: as `Destination`, with the number of registers in the group.
#[derive(Clone, Copy)]
pub(crate) struct DestinationRegisters {
    pub vd: VReg,
    pub emul: u32,
    pub registers: usize,
    pub fill_masked_off: bool,
    pub fill_tail: bool,
}

impl DestinationRegisters {
    /// Return the destination if each register has this number of elements.
    #[inline(always)]
    pub(crate) fn elements(self, in_register: usize) -> Destination
        requires { self.registers * in_register < 2 ^ 64 }
        ensures { result ≡ record {
          vd = self.vd;
          emul = self.emul;
          count = self.registers * in_register;
          fill_masked_off = self.fill_masked_off;
          fill_tail = self.fill_tail;
        } }
    {
        Destination {
            vd: self.vd,
            emul: self.emul,
            count: self.registers * in_register,
            fill_masked_off: self.fill_masked_off,
            fill_tail: self.fill_tail,
        }
    }
}

impl Destination {
    /// Return the same destination with masked-off elements unchanged.
    #[inline(always)]
    pub(crate) fn with_masked_off_unchanged(self) -> Destination
        ensures { result ≡ record self { fill_masked_off = false } }
    {
        Destination {
            fill_masked_off: false,
            ..self
        }
    }
}

/// A bound of the filled elements: `filled` if the flag is set, else the end of the body.
#[inline(always)]
fn bound(is_filled: bool, filled: usize, end: usize) -> usize
    ensures { result ≡ (if is_filled then filled else end) }
{
    if is_filled { filled } else { end }
}

/// Fill the agnostic elements of a group with ones: those of the body, before results are written to the active
/// ones, and those of the tail.
#[inline(always)]
pub(crate) fn fill_agnostic<L: Lane>(
    agnostic: Agnostic,
    emul: u32,
    body: &Body<'_>,
    group: &mut [u8],
)
    requires most { emul ≤ 64 }
    requires whole { length group.old ≡ VLENB * registers emul }
    requires room { width_bytes L.width * body.now.end ≤ VLENB * registers emul }
    ensures { Writes (width_bytes L.width) (is_agnostic body.now agnostic.fill_masked_off agnostic.fill_tail)
        (λ i. ones L.width) group.old group.new }
{
    let (end, count) = (body.end(), L::count() * registers(emul) as usize);
    let from = bound(agnostic.fill_masked_off, body.start().min(end), end);
    let to = bound(agnostic.fill_tail, count, end);
    fill(L::all_ones(), from, to, group);
}

/// Write results to the bytes of a group, and fill its agnostic elements.
#[inline(always)]
fn write_filled<L: Lane, R: Results<L>>(
    results: &R,
    body: &Body<'_>,
    destination: Destination,
    group: &mut [u8],
)
    requires operands { (i : ℕ) → i < body.now.end → R.has results.now i }
    requires room { width_bytes L.width * body.now.end ≤ length group.old }
    requires whole { length group.old ≡ width_bytes L.width * destination.count }
    requires most { destination.count ≤ GROUP_BYTES }
    ensures { Writes (width_bytes L.width) (is_changed body.now destination.fill_masked_off destination.fill_tail)
        (result_or_ones body.now (R.number results.now) (ones L.width)) group.old group.new }
{
    write_results(results, body, group, destination.fill_masked_off);
    if destination.fill_tail {
        fill(L::all_ones(), body.end(), destination.count, group);
    }
}

/// Write results to a group, and fill its agnostic elements.
#[inline(always)]
pub(crate) fn write_group<L: Lane, R: Results<L>>(
    results: &R,
    destination: Destination,
    body: &Body<'_>,
    file: &mut VFile,
)
    requires operands { (i : ℕ) → i < body.now.end → R.has results.now i }
    requires inside { IsInside destination.vd destination.emul }
    requires holds { HoldsBody L.width destination.emul destination.count body.now.end }
    ensures { file.new ≡ with_results (record { width = L.width; emul = destination.emul }) destination.vd body.now
        destination.fill_masked_off destination.fill_tail (R.number results.now) file.old }
{
    let group = group_mut(file, destination.vd, destination.emul);
    write_filled(results, body, destination, group);
}
