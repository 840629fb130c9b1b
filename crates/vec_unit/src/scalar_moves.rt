//! Moves between a scalar register and element 0 of a vector register ("V" Vector Extension 1.0, section
//! 16.1).
ghost use Rattle.std.specs.Prelude.{◌≡◌, ◌%◌, ◌^◌, ◌<◌, ◌≤◌, ⊤, length};
ghost use Rattle.std.specs.Int.{cast_signed, w64};
ghost use Rattle.rv_model.specs.elements.Arithmetic.{with_first_result};
ghost use Rattle.rv_model.specs.elements.Elements.{element};
ghost use Rattle.rv_model.specs.elements.Formulas.{wrap};
ghost use Rattle.rv_model.specs.elements.PermutationResults.{moved_to_scalar};
ghost use Rattle.rv_model.specs.scalar.Registers.{read_register};
ghost use Rattle.rv_model.specs.vector.Groups.{width_bytes};
ghost use mir.Val.{bits};

use crate::destination::Destination;
use crate::first_element::write_first;
use crate::operation::Operation;
use lane_arith::{Body, Lane};
use rv_model::{Reg, Scalar, Sew, VFile, VReg, VType};

/// Element 0 of a list of bytes, sign-extended to 64 bits.
fn first_extended<L: Lane>(bytes: &[u8]) -> u64
    requires { width_bytes L.width ≤ length bytes.now }
    ensures value { result ≡ wrap w64 (cast_signed L.width (element (width_bytes L.width) bytes.now 0)) }
    ensures bound { element (width_bytes L.width) bytes.now 0 < 2 ^ bits L.width }
{
    L::load(bytes, 0).signed_number().cast_unsigned()
}

/// Return the result of `vmv.x.s`: element 0 of `vs2`, sign-extended to 64 bits, for each vl.
#[tactic(auto, using(crate::proofs::TypedSteps::signs), unfolding(rv_model::specs::vector::Groups::register_of))]
pub(crate) fn scalar_of_first(vs2: VReg, vtype: VType, file: &VFile) -> u64
    ensures { result ≡ moved_to_scalar vtype vs2 file.now }
{
    let bytes = file.register(vs2);
    match vtype.sew {
        Sew::E8 => first_extended::<u8>(bytes),
        Sew::E16 => first_extended::<u16>(bytes),
        Sew::E32 => first_extended::<u32>(bytes),
        Sew::E64 => first_extended::<u64>(bytes),
    }
}

/// `vmv.s.x`: a move of the low bits of `rs1` to element 0.
#[derive(Clone, Copy)]
pub(crate) struct MoveToVector {
    pub rs1: Reg,
}

impl Operation for MoveToVector {
    ghost written = { λ o vd agnostic g body file x.
        with_first_result g.width vd body agnostic.fill_tail (read_register x o.rs1 % 2 ^ bits g.width) file };

    ghost inside = { λ o vd g end. ⊤ };

    fn write<L: Lane>(&self, to: Destination, body: &Body<'_>, file: &mut VFile, scalar: &Scalar) {
        write_first(L::low_bits(scalar.read(self.rs1)), to, body, file);
    }
}
