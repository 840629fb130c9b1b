//! Policy for agnostic elements.

/// Policy for elements that are agnostic by the vector type: they keep their values or become all ones (section 3.4.3,
/// `vta` and `vma`).
#[derive(Clone, Copy, PartialEq, Eq)]
pub enum Policy {
    Keep,
    Ones,
}
