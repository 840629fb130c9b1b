//! Operations on groups of the vector type ("V" Vector Extension 1.0, sections 5.2 to 5.4 and chapter 11).
ghost use Rattle.std.specs.Prelude.{◌≡◌, ◌≤◌, List, nat_lt, true, ℕ};
ghost use Rattle.rv_model.specs.declared.scalar.Scalar.{Scalar as ScalarRegisters};
ghost use Rattle.rv_model.specs.elements.Elements.{Body as BodyOf};
ghost use Rattle.rv_model.specs.vector.Groups.{GroupType, group_type, vlmax, register_of};
ghost use Rattle.rv_model.specs.lending.GroupBounds.{HoldsBody};
ghost use Rattle.vec_unit.specs.Results.{agnostic_in, registers_left};
ghost use Rattle.vec_unit.specs.declared.destination.Agnostic.{Agnostic as AgnosticElements};

use crate::body::body_under;
use crate::destination::{Destination, Target};
use lane_arith::{Body, Lane};
use reg_groups::mask_register;
use rv_model::{Policy, Scalar, Sew, VFile, VLENB, VReg, VState, VType};

/// An operation and its operands.
pub(crate) trait Operation {
    // The groups of the operands and the destination are inside the register file. Arguments: the destination's
    // first register, the type of the groups, and the end of the body.
    ghost inside: { Self → ℕ → GroupType → ℕ → Type 0 };

    // The bytes of all registers after the operation. Arguments: the destination's first register, the treatment of
    // its agnostic elements, the type of the groups, the body, and the old contents of the vector and scalar
    // registers.
    ghost written: { Self → ℕ → AgnosticElements → GroupType → BodyOf → List ℕ → ScalarRegisters → List ℕ };

    /// Write the results to the destination; the mask of the body is v0.
    fn write<L: Lane>(&self, to: Destination, body: &Body<'_>, file: &mut VFile, scalar: &Scalar)
        requires operands { inside self.now to.vd (record { width = L.width; emul = to.emul })
            body.now.end }
        requires holds { HoldsBody L.width to.emul to.count body.now.end }
        requires tail { to.fill_tail ≡ true → nat_lt body.now.start body.now.end ≡ true }
        requires mask { body.now.mask ≡ register_of file.old 0 }
        ensures { file.new ≡ written self.now to.vd (agnostic_in to)
            (record { width = L.width; emul = to.emul }) body.now file.old scalar.now };
}

/// Execute an operation on groups of the vector type.
#[tactic(auto, using(rv_model::proofs::legality_lemmas::Bounds::groups_hold_body))]
#[inline(always)]
pub(crate) fn perform<O: Operation>(
    operation: &O,
    target: Target,
    state: &mut VState,
    scalar: &Scalar,
)
    requires operands { O.inside operation.now target.vd (group_type target.vtype) state.old.conf.vl }
    requires length { state.old.conf.vl ≤ vlmax target.vtype }
    ensures { state.new ≡ registers_left (O.written operation.now) target scalar.now state.old }
{
    let sew = target.vtype.sew;
    let mask = mask_register(&state.file);
    let body = body_under(target.unmasked, &mask, state);
    let to = target.registers(&body);
    let file = &mut state.file;
    match sew {
        Sew::E8 => operation.write::<u8>(to.elements(VLENB), &body, file, scalar),
        Sew::E16 => operation.write::<u16>(to.elements(VLENB / 2), &body, file, scalar),
        Sew::E32 => operation.write::<u32>(to.elements(VLENB / 4), &body, file, scalar),
        Sew::E64 => operation.write::<u64>(to.elements(VLENB / 8), &body, file, scalar),
    }
}

/// Execute an operation on groups of the vector type, without inlining. `UNMASKED` says whether it is unmasked.
#[inline(never)]
pub(crate) fn perform_out_of_line<O: Operation, const UNMASKED: bool>(
    operation: &O,
    vd: VReg,
    vtype: VType,
    policy: Policy,
    state: &mut VState,
    scalar: &Scalar,
)
    requires operands { O.inside operation.now vd (group_type vtype) state.old.conf.vl }
    requires length { state.old.conf.vl ≤ vlmax vtype }
    ensures { state.new ≡ registers_left (O.written operation.now)
        (record { vd = vd; unmasked = UNMASKED; vtype = vtype; policy = policy }) scalar.now state.old }
{
    let target = Target::new(vd, UNMASKED, vtype, policy);
    perform(operation, target, state, scalar);
}
