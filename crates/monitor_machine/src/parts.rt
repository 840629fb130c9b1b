//! The parts of a machine that one user's commands borrow, without the trace.
ghost use Rattle.lazy_context.specs.LazyUnit.{IsSettled};

use crate::context::Context;
use lazy_context::Unit;
use rv_model::User;
use std::alloc::Allocator;
use user_mem::Pool;

/// The context of a user, and the vector unit and the pool of all users.
#[derive(Drop)]
pub(crate) struct Parts<'c, 'u, 'p, A: Allocator> {
    pub(crate) context: &'c mut Context,
    pub(crate) unit: &'u mut Unit,
    pub(crate) pool: &'p mut Pool<A>,
    pub(crate) user: User,
    ghost settled: { IsSettled unit.now },
}
