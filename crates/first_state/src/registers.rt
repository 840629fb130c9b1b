//! Applies a text of registers to a machine.
ghost use Rattle.std.specs.Prelude.{◌≡◌, ◌<◌, ◌∷◌, [], ℕ, Result, Err, Ok, IfSome, MatchOption, MatchResult, false, true, if◌then◌else◌, length, position};
ghost use Rattle.std.specs.Option.{option_map_or};
ghost use Rattle.rv_model.specs.text.Lines.{is_newline, pieces};
ghost use Rattle.rv_model.specs.step.Hart.{HartState};
ghost use Rattle.recording.specs.Machines.{state_of};
ghost use Rattle.first_state.specs.RegisterFile.{after_line, is_configuration, laid, state_with, with_registers};
ghost use Rattle.first_state.specs.Lines.{line_setting};

use crate::fault::RegistersFault;
use crate::laying::{Lengths, lay};
use crate::lines::line_setting;
use recording::SingleUserMachine;
use rv_model::VConf;
use vector_memory::UserBytes;

/// Return the index of the first newline, if there is one.
fn first_newline(text: &[u8]) -> Option<usize>
    ensures first { result ≡ position is_newline text.now }
    ensures bound { IfSome result (λ end. end < length text.now) }
{
    text.iter().position(|byte| *byte == b'\n')
}

/// Return the line before the first newline, and the text after that newline, if there is one.
#[tactic(auto, using(crate::proofs::Texts::lines_with_a_newline, crate::proofs::Texts::lines_without_a_newline))]
fn cut(text: &[u8]) -> (&[u8], Option<&[u8]>)
    ensures pieces { pieces text.now ≡ result.0.now ∷ option_map_or (λ rest. pieces rest.now) result.1 [] }
    ensures shorter { IfSome result.1 (λ rest. length rest.now < length text.now) }
{
    match first_newline(text) {
        Some(end) => (&text[..end], Some(&text[end + 1..])),
        None => (text, None),
    }
}

/// Set the register of a line. Return whether the line is valid; an invalid line changes nothing.
fn lay_line<M: UserBytes>(
    machine: &mut SingleUserMachine<M>,
    lengths: &mut Lengths,
    line: &[u8],
) -> bool
    ensures laid { (number : ℕ) (others : HartState → Result HartState ℕ)
        → after_line number (line_setting line.now) (state_with M.memory machine.old lengths.old) others
        ≡ if result then others (state_with M.memory machine.new lengths.new) else Err number }
    ensures memory { machine.new.memory ≡ machine.old.memory }
{
    match line_setting(line) {
        Some(Some(setting)) => {
            lay(machine, lengths, &setting);
            true
        }
        Some(None) => true,
        None => false,
    }
}

/// Set the registers of the lines of a text, in order. Return the number, counted from 1, of the first line that doesn't set a register to
/// a valid value.
fn lay_lines<M: UserBytes>(
    machine: &mut SingleUserMachine<M>,
    lengths: &mut Lengths,
    text: &[u8],
) -> Result<(), usize>
    ensures laid { MatchResult result
        (λ _. laid 1 (pieces text.now) (state_with M.memory machine.old lengths.old) ≡ Ok (state_with M.memory machine.new lengths.new))
        (λ number. laid 1 (pieces text.now) (state_with M.memory machine.old lengths.old) ≡ Err number) }
    ensures memory { machine.new.memory ≡ machine.old.memory }
{
    let mut rest = Some(text);
    let mut number = 1;
    while let Some(lines) = rest {
        let (line, others) = cut(lines);
        if !lay_line(machine, lengths, line) {
            return Err(number);
        }
        number += 1;
        rest = others;
    }
    Ok(())
}

/// Return the vector length and type as a configuration, if a vset instruction can leave them.
fn configuration(lengths: Lengths) -> Option<VConf>
    ensures { MatchOption result (is_configuration lengths.vl lengths.vtype ≡ false)
        (λ c. (is_configuration lengths.vl lengths.vtype ≡ true) × (c ≡ record { vl = lengths.vl; vtype = lengths.vtype })) }
{
    match lengths.vtype {
        None => {
            if lengths.vl == 0 {
                Some(VConf::vill())
            } else {
                None
            }
        }
        Some(vtype) => {
            if vtype.is_supported() && lengths.vl <= vtype.vlmax() {
                Some(VConf::new(lengths.vl, vtype))
            } else {
                None
            }
        }
    }
}

/// Set registers from the lines of a text. A line is a register's name and its value, separated by spaces. The value of `pc`, `x1` to
/// `x31`, `vl`, `vtype`, `vstart`, `vxrm` and `vxsat` is a hexadecimal number. The value of `v0` to `v31` is the 64 hexadecimal digits of
/// its bytes, byte 0 first. A later line for a register overrides an earlier one, and an empty line sets nothing. Other registers are
/// unchanged.
///
/// Return `Line` with the number, counted from 1, of the first line of another form or with a value that the register can't hold. Otherwise
/// return `Length` if no vset instruction can leave the final length with the final type. After an error, the registers that lines name
/// have unspecified values.
pub fn set_registers<M: UserBytes>(
    machine: &mut SingleUserMachine<M>,
    text: &[u8],
) -> Result<(), RegistersFault>
    ensures laid { MatchResult result
        (λ _. with_registers text.now (state_of M.memory machine.old) ≡ Ok (state_of M.memory machine.new))
        (λ fault. with_registers text.now (state_of M.memory machine.old) ≡ Err fault) }
    ensures memory { machine.new.memory ≡ machine.old.memory }
{
    let conf = machine.vectors.seat.state.conf;
    let mut lengths = Lengths {
        vl: conf.vl(),
        vtype: conf.vtype(),
    };
    if let Err(number) = lay_lines(machine, &mut lengths, text) {
        return Err(RegistersFault::Line(number));
    }
    let Some(conf) = configuration(lengths) else {
        return Err(RegistersFault::Length);
    };
    machine.vectors.seat.state.conf = conf;
    Ok(())
}
