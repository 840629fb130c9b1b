//! Slides and gathers ("V" Vector Extension 1.0, sections 16.3 and 16.4).
ghost use Rattle.std.specs.Prelude.{◌≡◌, ◌*◌, ◌<◌, ◌≤◌, length};
ghost use Rattle.rv_model.specs.vector.Groups.{element_count, width_bytes};
ghost use Rattle.rv_model.specs.elements.Elements.{element};
ghost use Rattle.rv_model.specs.elements.PermutationResults.{
  index_of,
  permute_body,
  permute_result,
  scalar_operand,
  source_type,
};
ghost use Rattle.rv_model.specs.elements.PermutationResults.{gathered};
ghost use Rattle.rv_model.specs.lending.GroupBounds.{HasIndices, HasRoom, HoldsBody, IsInside};
ghost use Rattle.vec_unit.specs.Results.{with_elements, with_written};

use crate::destination::{Destination, write_group};
use crate::operands::WithSources;
use crate::operation::Operation;
use lane_arith::{Body, Lane};
use lane_permute::{Gather, GatherOne, SlideDown, SlideOneDown, SlideOneUp, SlideUp};
use reg_groups::group_copy_mut;
use rv_model::instructions::operations::PermuteOp;
use rv_model::{GROUP_BYTES, Scalar, Source, VFile};
use std::marker::PhantomData;

/// The scalar operand: all 64 bits of `rs1`, or the immediate, which is unsigned; 0 if the operand is a vector.
fn scalar_operand(source: Source, scalar: &Scalar) -> u64
    ensures { result ≡ scalar_operand source scalar.now }
{
    match source {
        Source::V(_) => 0,
        Source::X(rs1) => scalar.read(rs1),
        Source::I(imm) => u64::from(imm.value()),
    }
}

/// The number of elements in a group with a multiplier in eighths of a register; VLMAX for a group of the vector
/// type.
#[inline(always)]
fn element_count<L: Lane>(emul: u32) -> usize
    ensures { result ≡ element_count (record { width = L.width; emul = emul }) }
{
    L::count() * emul as usize / 8
}

/// A gather from `a`, the `limit` elements of vs2, and the source of its indices.
#[derive(Clone, Copy)]
struct GatherOperation<'a> {
    a: &'a [u8],
    limit: usize,
    source: Source,
}

impl<'a> GatherOperation<'a> {
    /// Write the results to a destination. Indices in registers have the width of `I`, and `emul` is the multiplier
    /// of their group.
    fn write<L: Lane, I: Lane>(
        &self,
        emul: u32,
        destination: Destination,
        body: &Body<'_>,
        file: &mut VFile,
        scalar: &Scalar,
    )
        requires limit { width_bytes L.width * self.now.limit ≤ length self.now.a.now }
        requires indices { HasIndices self.now.source I.width emul body.now.end }
        requires inside { IsInside destination.vd destination.emul }
        requires holds { HoldsBody L.width destination.emul destination.count body.now.end }
        ensures { file.new ≡ with_written L.width destination body.now
            (λ i. gathered self.now.limit (element (width_bytes L.width) self.now.a.now)
            (index_of (record { width = I.width; emul = emul }) self.now.source file.old scalar.now i)) file.old }
    {
        let (a, limit) = (self.a, self.limit);
        let Source::V(vs1) = self.source else {
            let index = scalar_operand(self.source, scalar);
            write_group::<L, GatherOne<'_>>(
                &GatherOne { a, limit, index },
                destination,
                body,
                file,
            );
            return;
        };
        let mut copy = [0; GROUP_BYTES];
        let results = Gather::<'_, I> {
            a,
            limit,
            indices: group_copy_mut(file, vs1, emul, &mut copy),
            index: PhantomData,
        };
        write_group::<L, Gather<'_, I>>(&results, destination, body, file);
    }
}

impl Operation for WithSources<PermuteOp> {
    ghost written = { λ o vd agnostic g body file x.
        with_elements vd agnostic g (permute_body o.op o.source x body)
        (permute_result g o.op body.end o.vs2 o.source file x) file };

    ghost inside = { λ o vd g end. IsInside vd g.emul × IsInside o.vs2 g.emul
        × HasIndices o.source (source_type o.op g).width (source_type o.op g).emul end
        × HasRoom g.width g.emul (element_count g) };

    fn write<L: Lane>(&self, to: Destination, body: &Body<'_>, file: &mut VFile, scalar: &Scalar) {
        let mut copy = [0; GROUP_BYTES];
        let emul = to.emul;
        let limit = element_count::<L>(emul);
        let a: &[u8] = group_copy_mut(file, self.vs2, emul, &mut copy);
        let source = self.source;
        let offset = scalar_operand(self.source, scalar);
        match self.op {
            PermuteOp::Vrgather => {
                let gather = GatherOperation { a, limit, source };
                gather.write::<L, L>(emul, to, body, file, scalar);
            }
            PermuteOp::Vrgatherei16 => {
                let gather = GatherOperation { a, limit, source };
                let emul = 16 * emul / L::bits();
                gather.write::<L, u16>(emul, to, body, file, scalar);
            }
            PermuteOp::Vslideup => {
                let slide = SlideUp { a, offset };
                write_group::<L, SlideUp<'_>>(&slide, to, &slide.body(body), file);
            }
            PermuteOp::Vslidedown => {
                let slide = SlideDown { a, limit, offset };
                write_group::<L, SlideDown<'_>>(&slide, to, body, file);
            }
            PermuteOp::Vslide1up => {
                let first = L::low_bits(offset);
                let slide = SlideOneUp { a, first };
                write_group::<L, SlideOneUp<'_, L>>(&slide, to, body, file);
            }
            PermuteOp::Vslide1down => {
                let (end, last) = (body.end(), L::low_bits(offset));
                let slide = SlideOneDown { a, end, last };
                write_group::<L, SlideOneDown<'_, L>>(&slide, to, body, file);
            }
        }
    }
}
