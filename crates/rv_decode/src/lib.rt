//! Decoding and encoding of 32-bit instruction words.
#![tactic(auto)]

mod decoder;
mod encoder;
mod fixed_bits;
mod laws;
mod lines;
mod memory_operations;
mod operands;
mod scalar;
mod scalar_operations;
mod vector;
mod vector_memory;
mod vector_operations;
mod word_fields;

pub use decoder::{
    Kind, decode, decode_call, decode_csr, decode_other_access, decode_other_operation,
    decode_table_operation, decode_unit_stride, has_funct6_outside_table, is_unit_stride, kind_of,
};
pub use encoder::encode;
pub use laws::{decoded_again, encoded_again, one_row};
