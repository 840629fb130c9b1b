//! Conditional branches (Unprivileged ISA 20191213, section 2.5).
ghost use Rattle.std.specs.Prelude.{◌≡◌};
ghost use Rattle.rv_model.specs.scalar.ControlTransfer.{is_taken};

use rv_model::instructions::operations::BranchOp;

/// Return whether a branch that compares these registers' 64-bit words is taken (Unprivileged ISA 20191213,
/// section 2.5).
pub fn branch(op: BranchOp, a: u64, b: u64) -> bool
    ensures { result ≡ is_taken op a b }
{
    match op {
        BranchOp::Beq => a == b,
        BranchOp::Bne => a != b,
        BranchOp::Blt => a.cast_signed() < b.cast_signed(),
        BranchOp::Bge => a.cast_signed() >= b.cast_signed(),
        BranchOp::Bltu => a < b,
        BranchOp::Bgeu => a >= b,
    }
}
