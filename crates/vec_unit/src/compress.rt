//! `vcompress.vm` ("V" Vector Extension 1.0, section 16.5).
ghost use Rattle.std.specs.Prelude.{◌≡◌, ◌*◌, ◌≤◌, length};
ghost use Rattle.rv_model.specs.elements.Arithmetic.{group_element};
ghost use Rattle.rv_model.specs.vector.Groups.{register_of, width_bytes};
ghost use Rattle.rv_model.specs.elements.Elements.{element};
ghost use Rattle.rv_model.specs.elements.Formulas.{ones};
ghost use Rattle.rv_model.specs.elements.PermutationResults.{with_packed};
ghost use Rattle.rv_model.specs.elements.PermutationResults.{is_packed_or_filled, packed, packed_or_ones};
ghost use Rattle.rv_model.specs.lending.Writes.{Writes};
ghost use Rattle.rv_model.specs.lending.GroupBounds.{IsInside};

use crate::destination::Destination;
use crate::operation::Operation;
use lane_arith::{Body, Lane, fill};
use lane_permute::compress;
use reg_groups::{group_copy_mut, group_mut, register_copy};
use rv_model::{GROUP_BYTES, Scalar, VFile, VLENB, VReg};

/// Pack the selected elements into the bytes of a destination of `count` elements, and fill its tail, from element
/// `end` on. The elements between the two are unchanged.
fn compress_filled<L: Lane>(
    a: &[u8],
    select: &[u8; VLENB],
    end: usize,
    fill_tail: bool,
    count: usize,
    destination: &mut [u8],
)
    requires operand { width_bytes L.width * end ≤ length a.now }
    requires room { width_bytes L.width * end ≤ length destination.old }
    requires least { end ≤ GROUP_BYTES }
    requires whole { length destination.old ≡ width_bytes L.width * count }
    requires most { count ≤ GROUP_BYTES }
    ensures { Writes (width_bytes L.width)
        (is_packed_or_filled (packed select.now (element (width_bytes L.width) a.now) end) end fill_tail)
        (packed_or_ones (packed select.now (element (width_bytes L.width) a.now) end) (ones L.width))
        destination.old destination.new }
{
    compress::<L>(a, select, end, destination);
    if fill_tail {
        fill(L::all_ones(), end, count, destination);
    }
}

/// The sources of `vcompress.vm`: the bits of `vs1` select the elements of `vs2` that are packed.
#[derive(Clone, Copy)]
pub(crate) struct CompressOperation {
    pub vs1: VReg,
    pub vs2: VReg,
}

impl Operation for CompressOperation {
    ghost written = { λ o vd agnostic g body file x. with_packed g vd body.end agnostic.fill_tail
        (packed (register_of file o.vs1) (group_element g file o.vs2) body.end) file };

    ghost inside = { λ o vd g end. IsInside vd g.emul × IsInside o.vs2 g.emul };

    fn write<L: Lane>(&self, to: Destination, body: &Body<'_>, file: &mut VFile, scalar: &Scalar) {
        let (end, count) = (body.end(), to.count);
        let mut copy = [0; GROUP_BYTES];
        let a: &[u8] = group_copy_mut(file, self.vs2, to.emul, &mut copy);
        let select = register_copy(file, self.vs1);
        let group = group_mut(file, to.vd, to.emul);
        compress_filled::<L>(a, &select, end, to.fill_tail, count, group);
    }
}
