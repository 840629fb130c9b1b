//! The state that an instruction of a user reads and writes, and the limit and policy of a step.
ghost use Rattle.std.specs.Prelude.{◌≤◌};

use arrayvec::ArrayVec;
use rv_model::{OUTPUT_SIZE, Policy, Scalar};

/// Registers, memory, per-user adapter for the vector state, and output buffer of one user; and the policy
/// for agnostic elements.
#[derive(Drop)]
pub struct View<'s, 'm, 'v, 'o, M, V> {
    pub scalar: &'s mut Scalar,
    pub memory: &'m mut M,
    pub vectors: &'v mut V,
    pub output: &'o mut ArrayVec<u8, OUTPUT_SIZE>,
    pub policy: Policy,
}

/// Limit of a step in ticks, at least 1, and the policy for agnostic elements.
#[derive(Clone, Copy)]
pub struct StepTerms {
    pub limit: usize,
    pub policy: Policy,
    ghost some: { 1 ≤ limit },
}
