//! Operations of reductions ("V" Vector Extension 1.0, sections 14.1 and 14.2).
ghost use Rattle.std.specs.Prelude.{◌≡◌};
ghost use Rattle.rv_model.specs.elements.Formulas.{formula, wide_source_formula, wrap};
ghost use Rattle.rv_model.specs.elements.Reductions.{combining, widening_combining};

use crate::combine::{Combine, Combined};
use crate::lanes::reduce_chunks;
use lane_arith::{Body, Lane, apply, apply_wide};
use rv_model::instructions::operations::{BinaryOp, ReduceOp, WideSourceOp, WidenReduceOp};

/// A reduction whose result has the width of the elements.
#[derive(Clone, Copy)]
pub struct Reduction {
    pub op: ReduceOp,
}

/// The operation with which a reduction combines two elements.
pub(crate) fn combining(op: ReduceOp) -> BinaryOp
    ensures { result ≡ combining op }
{
    match op {
        ReduceOp::Vredsum => BinaryOp::Vadd,
        ReduceOp::Vredand => BinaryOp::Vand,
        ReduceOp::Vredor => BinaryOp::Vor,
        ReduceOp::Vredxor => BinaryOp::Vxor,
        ReduceOp::Vredminu => BinaryOp::Vminu,
        ReduceOp::Vredmin => BinaryOp::Vmin,
        ReduceOp::Vredmaxu => BinaryOp::Vmaxu,
        ReduceOp::Vredmax => BinaryOp::Vmax,
    }
}

impl<L: Lane> Combine<L, L> for Reduction {
    ghost combined = { λ r x a. wrap L.width (formula (combining r.op) L.width x a) };

    fn combined(&self, so_far: L, element: L) -> L {
        apply(combining(self.op), so_far, element)
    }

    fn combined_chunks(&self, first: L, elements: &[u8], body: &Body<'_>) -> Option<Combined<L>> {
        reduce_chunks(self.op, first, elements, body)
    }
}

/// A sum with twice the width of the elements.
#[derive(Clone, Copy)]
pub struct WideningReduction {
    pub op: WidenReduceOp,
}

/// The operation with which a widening reduction combines a sum and an element.
fn widening_combining(op: WidenReduceOp) -> WideSourceOp
    ensures { result ≡ widening_combining op }
{
    match op {
        WidenReduceOp::Vwredsumu => WideSourceOp::Vwaddu,
        WidenReduceOp::Vwredsum => WideSourceOp::Vwadd,
    }
}

impl<N: Lane, W: Lane> Combine<N, W> for WideningReduction {
    ghost combined = { λ r x a. wrap W.width (wide_source_formula (widening_combining r.op) W.width N.width x a) };

    fn combined(&self, so_far: W, element: N) -> W {
        apply_wide(widening_combining(self.op), so_far, element)
    }
}
