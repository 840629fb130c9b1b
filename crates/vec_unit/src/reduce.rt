//! Reductions ("V" Vector Extension 1.0, chapter 14).
ghost use Rattle.std.specs.Prelude.{◌≡◌, ◌*◌, ◌≤◌, nat_lt, true};
ghost use Rattle.rv_model.specs.elements.Arithmetic.{
  body_of,
  fills_tail,
  reduce_result,
  widen_reduce_result,
  with_first_result,
};
ghost use Rattle.rv_model.specs.vector.Groups.{group_type, lmul_eighths, sew_bits, vlmax, wide_type};
ghost use Rattle.rv_model.specs.lending.GroupBounds.{HasRoom, IsInside, SourceIsInside};

use crate::body::body_under;
use crate::destination::{Destination, Target};
use crate::first_element::write_first;
use crate::operands::{WithSources, second_elements, signed_operand};
use crate::operation::Operation;
use lane_arith::{Body, Lane};
use lane_reduce::{Reduction, WideningReduction, reduce};
use reg_groups::{group, mask_register};
use rv_model::instructions::operations::{ReduceOp, WidenReduceOp};
use rv_model::{Scalar, Sew, VFile, VLENB, VState};

impl Operation for WithSources<ReduceOp> {
    ghost written = { λ o vd agnostic g body file x.
        with_first_result g.width vd body agnostic.fill_tail (reduce_result g o.op body o.vs2 o.source file x) file };

    ghost inside = { λ o vd g end. IsInside o.vs2 g.emul × SourceIsInside o.source 8 };

    fn write<L: Lane>(&self, to: Destination, body: &Body<'_>, file: &mut VFile, scalar: &Scalar) {
        let a = group(file, self.vs2, to.emul);
        let operand = signed_operand(self.source, 8);
        let start = second_elements(operand, file, scalar).element::<L>(0);
        let number = reduce::<L, L, Reduction>(&Reduction { op: self.op }, start, a, body);
        write_first(number, to, body, file);
    }
}

impl WithSources<WidenReduceOp> {
    /// Write the result, of the width of `W`, to element 0 of the destination's first register. The elements of
    /// `vs2` have the width of `N`; the destination's multiplier is that of `vs2`.
    fn write<N: Lane, W: Lane>(
        &self,
        to: Destination,
        body: &Body<'_>,
        file: &mut VFile,
        scalar: &Scalar,
    )
        requires first { IsInside self.now.vs2 to.emul }
        requires second { SourceIsInside self.now.source 8 }
        requires room { HasRoom N.width to.emul body.now.end }
        requires tail { to.fill_tail ≡ true → nat_lt body.now.start body.now.end ≡ true }
        ensures { file.new ≡ with_first_result W.width to.vd body.now to.fill_tail
            (widen_reduce_result (record { width = N.width; emul = to.emul })
            (record { width = W.width; emul = 2 * to.emul }) self.now.op body.now self.now.vs2 self.now.source file.old
            scalar.now) file.old }
    {
        let a = group(file, self.vs2, to.emul);
        let operand = signed_operand(self.source, 8);
        let start = second_elements(operand, file, scalar).element::<W>(0);
        let combine = WideningReduction { op: self.op };
        let number = reduce::<N, W, WideningReduction>(&combine, start, a, body);
        write_first(number, to, body, file);
    }

    /// Execute the reduction of a group of the vector type to twice its width.
    #[tactic(auto, using(crate::proofs::LegalGroups::reduced_groups))]
    pub(crate) fn perform(&self, target: Target, state: &mut VState, scalar: &Scalar)
        requires first { IsInside self.now.vs2 (lmul_eighths target.vtype.lmul) }
        requires second { SourceIsInside self.now.source 8 }
        requires narrow { sew_bits target.vtype.sew ≤ 32 }
        requires length { state.old.conf.vl ≤ vlmax target.vtype }
        ensures { state.new ≡ record state.old {
          file =
              with_first_result (wide_type target.vtype).width target.vd (body_of target.unmasked state.old)
              (fills_tail target.policy target.vtype (body_of target.unmasked state.old))
              (widen_reduce_result (group_type target.vtype) (wide_type target.vtype) self.now.op
              (body_of target.unmasked state.old) self.now.vs2 self.now.source state.old.file scalar.now)
              state.old.file;
        } }
    {
        let sew = target.vtype.sew;
        let mask = mask_register(&state.file);
        let body = body_under(target.unmasked, &mask, state);
        let to = target.registers(&body);
        let file = &mut state.file;
        match sew {
            Sew::E8 => self.write::<u8, u16>(to.elements(VLENB / 2), &body, file, scalar),
            Sew::E16 => self.write::<u16, u32>(to.elements(VLENB / 4), &body, file, scalar),
            Sew::E32 => self.write::<u32, u64>(to.elements(VLENB / 8), &body, file, scalar),
            Sew::E64 => unreachable!(),
        }
    }
}
