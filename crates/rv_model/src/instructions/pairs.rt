//! Vector operations with a second operand in a form that the manual's table allows.
ghost use Rattle.std.specs.Prelude.{◌≡◌, true};
ghost use Rattle.rv_model.specs.instructions.Operations.{has_form, line, carry_line, form_of};

use crate::instructions::operations::{CarryOp, VectorOp};
use crate::instructions::source::Source;
use std::marker::Model;

/// An operation and its second operand.
#[derive(Clone, Copy)]
pub struct Arith {
    op: VectorOp,
    source: Source,
}

impl Model for Arith {
    ghost use Rattle.std.specs.Prelude.{◌≡◌, true};
    ghost use Rattle.rv_model.specs.declared.instructions.operations.VectorOp.{VectorOp};
    ghost use Rattle.rv_model.specs.declared.instructions.source.Source.{Source};
    ghost use Rattle.rv_model.specs.instructions.Operations.{has_form, line, form_of};

    ghost Value = { VectorOp × Source };

    ghost view = { λ a. (a.op, a.source) };

    ghost invariant = { λ a. has_form (line a.op).forms (form_of a.source) ≡ true };

    ghost inverse = { λ v. record { op = v.0; source = v.1 } };
}

impl Arith {
    /// Return the pair of an operation and a source in one of the operation's forms.
    pub fn new(op: VectorOp, source: Source) -> Arith
        requires { has_form (line op).forms (form_of source) ≡ true }
        ensures { result ≡ (op, source) }
    {
        Arith { op, source }
    }

    /// Return the operation and its source.
    pub fn parts(self) -> (VectorOp, Source)
        ensures value { result ≡ self }
        ensures allowed { has_form (line self.0).forms (form_of self.1) ≡ true }
    {
        (self.op, self.source)
    }
}

/// An operation that takes v0 as an operand, and its second operand.
#[derive(Clone, Copy)]
pub struct Carry {
    op: CarryOp,
    source: Source,
}

impl Model for Carry {
    ghost use Rattle.std.specs.Prelude.{◌≡◌, true};
    ghost use Rattle.rv_model.specs.declared.instructions.operations.CarryOp.{CarryOp};
    ghost use Rattle.rv_model.specs.declared.instructions.source.Source.{Source};
    ghost use Rattle.rv_model.specs.instructions.Operations.{has_form, carry_line, form_of};

    ghost Value = { CarryOp × Source };

    ghost view = { λ a. (a.op, a.source) };

    ghost invariant = { λ a. has_form (carry_line a.op).forms (form_of a.source) ≡ true };

    ghost inverse = { λ v. record { op = v.0; source = v.1 } };
}

impl Carry {
    /// Return the pair of an operation and a source in one of the operation's forms.
    pub fn new(op: CarryOp, source: Source) -> Carry
        requires { has_form (carry_line op).forms (form_of source) ≡ true }
        ensures { result ≡ (op, source) }
    {
        Carry { op, source }
    }

    /// Return the operation and its source.
    pub fn parts(self) -> (CarryOp, Source)
        ensures value { result ≡ self }
        ensures allowed { has_form (carry_line self.0).forms (form_of self.1) ≡ true }
    {
        (self.op, self.source)
    }
}
