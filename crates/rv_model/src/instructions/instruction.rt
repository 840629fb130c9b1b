//! Instructions, by group.
use crate::instructions::access::AccessInstr;
use crate::instructions::csr::CsrInstr;
use crate::instructions::scalar::ScalarInstr;
use crate::instructions::vector::VectorInstr;

/// An instruction: its operation, and each operand that its word encodes.
#[derive(Clone, Copy)]
pub enum Instr {
    /// An instruction of RV64I or its extension M.
    Scalar(ScalarInstr),
    /// An instruction that reads and writes a control register.
    Csr(CsrInstr),
    /// An instruction of the vector extension that neither loads nor stores.
    Vector(VectorInstr),
    /// A vector load or store.
    Access(AccessInstr),
}
