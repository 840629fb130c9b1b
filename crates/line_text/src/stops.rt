//! Messages for the stop of a program, with its cause and program counter.
ghost use Rattle.std.specs.Prelude.{◌≡◌, ◌++◌, ◌+◌, ◌≤◌, length, codes, decimal};
ghost use Rattle.rv_model.specs.step.Hart.{cause_number};
ghost use Rattle.rv_model.specs.commands.Printing.{hex16, stop_line};

use crate::numerals::{push_decimal, push_hex16};
use crate::reply::Reply;
use rv_model::{Cause, Stop};

/// Append the program counter: ` pc=` and 16 hexadecimal digits.
pub fn push_pc(reply: &mut Reply, pc: u64)
    requires { length reply.old + 20 ≤ 4096 }
    ensures text { reply.new ≡ reply.old ++ codes " pc=" ++ hex16 pc }
    ensures bound { length reply.new ≡ length reply.old + 20 }
{
    reply.push(b" pc=");
    push_hex16(reply, pc);
}

/// Append the value of a fault: the faulting address or the 32-bit instruction word.
fn push_value(reply: &mut Reply, value: u64)
    requires { length reply.old + 23 ≤ 4096 }
    ensures text { reply.new ≡ reply.old ++ codes " value=" ++ hex16 value }
    ensures bound { length reply.new ≡ length reply.old + 23 }
{
    reply.push(b" value=");
    push_hex16(reply, value);
}

/// Append the cause number of a fault, in decimal.
fn push_cause(reply: &mut Reply, cause: Cause)
    requires { length reply.old + 32 ≤ 4096 }
    ensures text { reply.new ≡ reply.old ++ codes "fault cause=" ++ decimal (cause_number cause) }
    ensures bound { length reply.new ≤ length reply.old + 32 }
{
    reply.push(b"fault cause=");
    push_decimal(reply, u64::from(cause.number()));
}

/// Append the exit status of a program, in decimal.
fn push_exit(reply: &mut Reply, status: u8)
    requires { length reply.old + 25 ≤ 4096 }
    ensures text { reply.new ≡ reply.old ++ codes "exit " ++ decimal status }
    ensures bound { length reply.new ≤ length reply.old + 25 }
{
    reply.push(b"exit ");
    push_decimal(reply, u64::from(status));
}

/// Append a text and the program counter, in 16 hexadecimal digits.
fn push_place(reply: &mut Reply, words: &[u8], pc: u64)
    requires { length reply.old + length words.now + 16 ≤ 4096 }
    ensures text { reply.new ≡ reply.old ++ (words.now ++ hex16 pc) }
    ensures bound { length reply.new ≡ length reply.old + length words.now + 16 }
{
    reply.push(words);
    push_hex16(reply, pc);
}

/// Append the message for a stop at `pc`. It has at most 75 bytes.
#[tactic(auto, unfolding(rv_model::specs::commands::Printing::stop_line))]
pub fn push_stop(reply: &mut Reply, pc: u64, stop: Stop)
    requires { length reply.old + 75 ≤ 4096 }
    ensures text { reply.new ≡ reply.old ++ stop_line pc stop }
    ensures bound { length reply.new ≤ length reply.old + 75 }
{
    match stop {
        Stop::Breakpoint => push_place(reply, b"break pc=", pc),
        Stop::Ebreak => push_place(reply, b"ebreak pc=", pc),
        Stop::Exit(status) => {
            push_exit(reply, status);
            push_pc(reply, pc);
        }
        Stop::Fault { cause, value } => {
            push_cause(reply, cause);
            push_pc(reply, pc);
            push_value(reply, value);
        }
        Stop::OutputFull => push_place(reply, b"outfull pc=", pc),
    }
}
