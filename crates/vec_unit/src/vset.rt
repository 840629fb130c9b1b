//! The instructions that set the vector length and type ("V" Vector Extension 1.0, section 6).
ghost use Rattle.std.specs.Prelude.{◌≡◌};
ghost use Rattle.rv_model.specs.scalar.Registers.{with_register};
ghost use Rattle.rv_model.specs.step.Step.{requested_length};
ghost use Rattle.rv_model.specs.vector.TypeRules.{requested};

use rv_model::{Reg, RequestedLength, Scalar, VState, VectorRequest};

/// The vector length that the instruction requests: the value of `rs1`, the maximum if `rs1` is x0, or the old
/// length if `rd` is x0 too.
pub(crate) fn requested_length(rd: Reg, rs1: Reg, scalar: &Scalar) -> RequestedLength
    ensures { result ≡ requested_length rd rs1 scalar.now }
{
    if rs1.number() != 0 {
        RequestedLength::Elements(scalar.read(rs1))
    } else if rd.number() != 0 {
        RequestedLength::Maximum
    } else {
        RequestedLength::Keep
    }
}

/// Set the vector length and type for a request, write the new length to `rd`, and set vstart to 0.
pub(crate) fn configure(
    rd: Reg,
    vtype: u64,
    length: RequestedLength,
    state: &mut VState,
    scalar: &mut Scalar,
)
    ensures state { state.new ≡ record state.old {
      conf = requested state.old.conf (record { vtype = vtype; length = length });
      vstart = 0;
    } }
    ensures scalar { scalar.new ≡ with_register rd
        (requested state.old.conf (record { vtype = vtype; length = length })).vl scalar.old }
{
    let conf = vtype_rules::set(&state.conf, VectorRequest { vtype, length });
    scalar.write(rd, u64::from(conf.vl()));
    state.conf = conf;
    state.vstart = 0;
}
