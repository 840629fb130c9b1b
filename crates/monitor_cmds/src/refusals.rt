//! Refusals of commands, and of lines without a valid prefix or length.
ghost use Rattle.std.specs.Prelude.{◌≡◌, [], ◌∷◌, ◌++◌, ◌+◌, ◌≤◌, length, codes};
ghost use Rattle.rv_model.specs.commands.Printing.{refused};
ghost use Rattle.rv_model.specs.text.Lines.{text};
ghost use Rattle.monitor_cmds.specs.Tag.{tag_byte};

use crate::lines::push_line;
use crate::tag::Tag;
use line_text::{Reply, push_decimal};
use rv_model::Refusal;

/// Append the code of a refusal and its details.
#[tactic(auto, unfolding(rv_model::specs::commands::Printing::refused))]
fn push_refusal(reply: &mut Reply, refusal: Refusal)
    requires { length reply.old + 24 ≤ 4096 }
    ensures text { reply.new ≡ reply.old ++ refused refusal }
    ensures bound { length reply.new ≤ length reply.old + 24 }
{
    match refusal {
        Refusal::UnknownCommand => reply.push(b"E03"),
        Refusal::Argument => reply.push(b"E04"),
        Refusal::NotEntered => reply.push(b"E05"),
        Refusal::AlreadyEntered => reply.push(b"E06"),
        Refusal::Running => reply.push(b"E07"),
        Refusal::ImageName => reply.push(b"E08"),
        Refusal::ElfFault(fault) => {
            reply.push(b"E09 ");
            reply.push(fault.name().as_bytes());
        }
        Refusal::Quota => reply.push(b"E10"),
        Refusal::NotMapped => reply.push(b"E11"),
        Refusal::BreakpointLimit => reply.push(b"E12"),
        Refusal::Breakpoint => reply.push(b"E13"),
        Refusal::NotRunning => reply.push(b"E14"),
        Refusal::Assembler(column) => {
            reply.push(b"E15 ");
            push_decimal(reply, column as u64);
        }
        Refusal::AlreadyMapped => reply.push(b"E16"),
    }
}

/// Append a line with the code of a refusal, for example `E04`, and its details: the name of the fault of an image, for
/// example `E09 Short`, or the column in an assembler text, for example `E15 14`.
pub fn refused(reply: &mut Reply, tag: Tag, refusal: Refusal)
    requires { length reply.old + 27 ≤ 4096 }
    ensures text { reply.new ≡ reply.old ++ text (tag_byte tag) (refused refusal ∷ []) }
    ensures bound { length reply.new ≤ length reply.old + 27 }
{
    reply.push(&[tag.byte(), b' ']);
    push_refusal(reply, refusal);
    reply.push(b"\n");
}

/// Append the line `* E01`: a line of the script starts neither with a digit from 1 to 8 nor with a star, or no space
/// follows it.
pub fn bad_prefix(reply: &mut Reply)
    requires { length reply.old + 6 ≤ 4096 }
    ensures text { reply.new ≡ reply.old ++ text 42 (codes "E01" ∷ []) }
    ensures bound { length reply.new ≡ length reply.old + 6 }
{
    push_line(reply, Tag::Common, b"E01");
}

/// Append the line `* E02`: a line of the script has more than 1,024 bytes.
pub fn line_too_long(reply: &mut Reply)
    requires { length reply.old + 6 ≤ 4096 }
    ensures text { reply.new ≡ reply.old ++ text 42 (codes "E02" ∷ []) }
    ensures bound { length reply.new ≡ length reply.old + 6 }
{
    push_line(reply, Tag::Common, b"E02");
}
