//! The commands of a user, by group: the names of a group's commands, parsers of their arguments, and their replies.
pub mod breakpoints;
pub mod entering;
pub mod memory;
pub mod programs;
pub mod registers;
pub mod running;
