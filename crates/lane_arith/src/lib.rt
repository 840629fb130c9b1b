//! Kernels of element-wise integer operations, generic over the width of an element.
#![tactic(auto)]

mod binary;
mod body;
pub mod chunk;
mod chunk_bits;
mod compare;
mod copies;
mod division;
mod extend;
mod high_products;
mod lane;
mod mask_bytes;
mod mask_operand;
mod mask_results;
mod multiply_add;
mod narrow_shift;
mod operand;
mod operation_loops;
mod operations;
mod results;
mod second_elements;
mod whole_number;
mod widen;

pub use binary::Binary;
pub use body::Body;
pub use chunk_bits::{active_bits, enabled_bits, filled_bits, mask_bits};
pub use compare::{CarryOut, Compare};
pub use copies::Copies;
pub use extend::Extend;
pub use lane::Lane;
pub use mask_bytes::active_bytes;
pub use mask_operand::{WithMaskOperand, bit_of};
pub use mask_results::{MaskResults, put_bits, write_mask_results};
pub use multiply_add::MultiplyAdd;
pub use narrow_shift::NarrowShift;
pub use operand::{chunk_elements, operand_chunk};
pub use operations::apply;
pub use results::{Results, fill, put_results, write_results};
pub use second_elements::SecondElements;
pub use whole_number::wrapped;
pub use widen::{WideSource, Widen, WidenMultiplyAdd, apply_wide};
