//! The text of the monitor: parsing of commands, and printing of replies.
#![tactic(auto)]

mod commands;
mod lines;
mod operator;
mod parsing;
mod refusals;
mod stops;
mod tag;
mod trimming;

pub use commands::breakpoints::breaks_line;
pub use commands::entering::{entered, left};
pub use commands::memory::peek_line;
pub use commands::programs::{asm_line, dis_lines, loaded_line};
pub use commands::registers::{registers, vcsr_line, vreg_line};
pub use commands::running::{
    out_line, running_line, state_line, step_line, stopped_line, trace_line,
};
pub use line_text::Reply;
pub use lines::ok;
pub use operator::{granted_line, list_line, parse_operator, stats_line};
pub use parsing::parse;
pub use refusals::{bad_prefix, line_too_long, refused};
pub use rv_model::{Cmd, Refusal};
pub use stops::stop_line;
pub use tag::Tag;
