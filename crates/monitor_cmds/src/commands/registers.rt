//! The commands for a user's registers, `set`, `regs`, `setpc`, `vreg`, `vset` and `vcsr`, and for agnostic elements,
//! `policy`.
ghost use Rattle.std.specs.Prelude.{◌≡◌, [], ◌∷◌, ◌++◌, ◌+◌, ◌*◌, ◌/◌, ◌<◌, ◌≤◌, length, codes, decimal, flat_map};
ghost use Rattle.std.specs.List.{range_with_len};
ghost use Rattle.rv_model.specs.declared.commands.registers.RegisterCommand.TheVariants.{
  Set,
  SetPc,
  Vreg,
  Vset,
  SetPolicy,
};
ghost use Rattle.rv_model.specs.commands.Arguments.{
  address,
  instruction_address,
  policy_word,
  register_bytes,
  scalar_register,
  sew_argument,
  vector_register,
};
ghost use Rattle.rv_model.specs.commands.Reading.{one_argument, two_arguments};
ghost use Rattle.rv_model.specs.commands.Printing.{hex16};
ghost use Rattle.rv_model.specs.commands.Registers.{
  registers_named,
  register_text,
  register_line,
  regs_lines,
  element_text,
  vreg_line,
  vcsr_line,
};
ghost use Rattle.rv_model.specs.instructions.FixedBits.{flag_bit};
ghost use Rattle.rv_model.specs.text.Lines.{tagged, text};
ghost use Rattle.rv_model.specs.text.Words.{words};
ghost use Rattle.rv_model.specs.vector.Groups.{sew_bits};
ghost use Rattle.rv_model.specs.vector.RoundingModes.{rounding_number};
ghost use Rattle.rv_model.specs.vector.TypeRules.{vtype_number};
ghost use Rattle.monitor_cmds.specs.Tag.{tag_byte};

use crate::tag::Tag;
use line_text::{
    Arguments, Reply, address, done, element_width, instruction_address, policy, push_bytes,
    push_decimal, push_hex16, scalar_register, vector_register,
};
use rv_model::{
    RegisterBytes, RegisterCommand, RoundingMode, Scalar, Sew, VConf, VLENB, VReg, VState,
};
use vtype_rules::vtype_number;

/// Return the group's command with a name and its arguments: `None` if the group has no command of this name, and
/// `Some(None)` if the arguments are wrong.
pub(crate) fn registers_named(name: &[u8], args: &[u8]) -> Option<Option<RegisterCommand>>
    ensures { result ≡ registers_named name.now (words args.now) }
{
    if name == b"set".as_slice() {
        return Some(set_args(args));
    }
    if name == b"regs".as_slice() {
        return Some(done(Arguments::new(args), RegisterCommand::Regs));
    }
    if name == b"setpc".as_slice() {
        return Some(setpc_args(args));
    }
    if name == b"vreg".as_slice() {
        return Some(vreg_args(args));
    }
    if name == b"vset".as_slice() {
        return Some(vset_args(args));
    }
    if name == b"vcsr".as_slice() {
        return Some(done(Arguments::new(args), RegisterCommand::Vcsr));
    }
    if name == b"policy".as_slice() {
        return Some(policy_args(args));
    }
    None
}

/// Parse the arguments of `set xN HEX`.
#[tactic(auto, unfolding(rv_model::specs::commands::Reading::two_arguments))]
fn set_args(args: &[u8]) -> Option<RegisterCommand>
    ensures { result ≡ two_arguments Set scalar_register address (words args.now) }
{
    let mut words = Arguments::new(args);
    let register = scalar_register(words.next_argument()?)?;
    let value = address(words.next_argument()?)?;
    done(words, RegisterCommand::Set { register, value })
}

/// Parse the argument of `setpc ADDR`.
#[tactic(auto, unfolding(rv_model::specs::commands::Reading::one_argument))]
fn setpc_args(args: &[u8]) -> Option<RegisterCommand>
    ensures { result ≡ one_argument SetPc instruction_address (words args.now) }
{
    let mut words = Arguments::new(args);
    let addr = instruction_address(words.next_argument()?)?;
    done(words, RegisterCommand::SetPc(addr))
}

/// Parse the arguments of `vreg vN SEW`, with the element width in bits.
#[tactic(auto, unfolding(rv_model::specs::commands::Reading::two_arguments))]
fn vreg_args(args: &[u8]) -> Option<RegisterCommand>
    ensures { result ≡ two_arguments Vreg vector_register sew_argument (words args.now) }
{
    let mut words = Arguments::new(args);
    let register = vector_register(words.next_argument()?)?;
    let width = element_width(words.next_argument()?)?;
    done(words, RegisterCommand::Vreg { register, width })
}

/// Parse the arguments of `vset vN HEX`, with 32 bytes.
#[tactic(auto, unfolding(rv_model::specs::commands::Reading::two_arguments))]
fn vset_args(args: &[u8]) -> Option<RegisterCommand>
    ensures { result ≡ two_arguments Vset vector_register register_bytes (words args.now) }
{
    let mut words = Arguments::new(args);
    let register = vector_register(words.next_argument()?)?;
    let bytes = RegisterBytes::from_hex(words.next_argument()?)?;
    done(words, RegisterCommand::Vset { register, bytes })
}

/// Parse the argument of `policy keep` or `policy ones`.
#[tactic(auto, unfolding(rv_model::specs::commands::Reading::one_argument))]
fn policy_args(args: &[u8]) -> Option<RegisterCommand>
    ensures { result ≡ one_argument SetPolicy policy_word (words args.now) }
{
    let mut words = Arguments::new(args);
    let policy = policy(words.next_argument()?)?;
    done(words, RegisterCommand::SetPolicy(policy))
}

/// Append a register's name and its value in 16 hexadecimal digits.
#[tactic(auto, unfolding(rv_model::specs::commands::Registers::register_text))]
fn push_register(reply: &mut Reply, scalar: &Scalar, number: usize)
    requires room { length reply.old + 38 ≤ 4096 }
    requires register { number < 32 }
    ensures text { reply.new ≡ reply.old ++ register_text scalar.now number }
    ensures bound { length reply.new ≤ length reply.old + 38 }
{
    reply.push(b"x");
    push_decimal(reply, number as u64);
    reply.push(b" ");
    push_hex16(reply, scalar.x[number]);
}

/// Append a line with the four registers from `first` on.
#[tactic(auto, unfolding(rv_model::specs::commands::Registers::register_line))]
fn push_register_line(reply: &mut Reply, tag: &Tag, scalar: &Scalar, first: usize)
    requires room { length reply.old + 158 ≤ 4096 }
    requires registers { first + 3 < 32 }
    ensures text { reply.new ≡ reply.old
        ++ tagged (tag_byte tag.now) (register_line scalar.now first) }
    ensures bound { length reply.new ≤ length reply.old + 158 }
{
    reply.push(&[tag.byte(), b' ']);
    push_register(reply, scalar, first);
    reply.push(b" ");
    push_register(reply, scalar, first + 1);
    reply.push(b" ");
    push_register(reply, scalar, first + 2);
    reply.push(b" ");
    push_register(reply, scalar, first + 3);
    reply.push(b"\n");
}

/// Append the line with the program counter.
fn push_pc_line(reply: &mut Reply, tag: Tag, pc: u64)
    requires { length reply.old + 22 ≤ 4096 }
    ensures text { reply.new ≡ reply.old ++ tagged (tag_byte tag) (codes "pc " ++ hex16 pc) }
    ensures bound { length reply.new ≡ length reply.old + 22 }
{
    reply.push(&[tag.byte(), b' ']);
    reply.push(b"pc ");
    push_hex16(reply, pc);
    reply.push(b"\n");
}

/// Append the reply to `regs`: a line with the program counter, and eight lines with four registers each. Each value
/// has 16 hexadecimal digits.
#[tactic(auto, unfolding(rv_model::specs::commands::Registers::regs_lines))]
pub fn registers(reply: &mut Reply, tag: Tag, scalar: &Scalar)
    requires { length reply.old + 1300 ≤ 4096 }
    ensures text { reply.new ≡ reply.old ++ text (tag_byte tag) (regs_lines scalar.now) }
    ensures bound { length reply.new ≤ length reply.old + 1300 }
{
    push_pc_line(reply, tag, scalar.pc);
    for line in 0..8 {
        push_register_line(reply, &tag, scalar, 4 * line);
    }
}

/// Append an element of `size` bytes (1, 2, 4 or 8) in hexadecimal, most significant byte first.
#[tactic(auto, unfolding(rv_model::specs::commands::Registers::element_text))]
fn push_element(reply: &mut Reply, register: &[u8], size: usize, index: usize)
    requires size { size ≤ 8 }
    requires within { size * index + size ≤ length register.now }
    requires room { length reply.old + 17 ≤ 4096 }
    ensures text { reply.new ≡ reply.old ++ element_text size register.now index }
    ensures bound { length reply.new ≤ length reply.old + 17 }
{
    let start = size * index;
    let mut element = [0; 8];
    element[..size].copy_from_slice(&register[start..start + size]);
    element[..size].reverse();
    reply.push(b" ");
    push_bytes(reply, &element[..size]);
}

/// Append all elements of a register, element 0 first.
fn push_elements(reply: &mut Reply, register: &[u8], width: Sew)
    requires register { length register.now ≡ 32 }
    requires room { length reply.old + 544 ≤ 4096 }
    ensures text { reply.new ≡ reply.old
        ++ flat_map (element_text (sew_bits width / 8) register.now) (range_with_len 0 (256 / sew_bits width)) }
    ensures bound { length reply.new ≤ length reply.old + 544 }
{
    let size = usize::from(width.bits()) / 8;
    for index in 0..VLENB / size {
        push_element(reply, register, size, index);
    }
}

/// Append the reply to `vreg`: the register's name and its elements, element 0 first. Each byte of an element has two
/// hexadecimal digits.
#[tactic(auto, unfolding(rv_model::specs::commands::Registers::vreg_line))]
pub fn vreg_line(reply: &mut Reply, tag: Tag, number: VReg, width: Sew, register: &[u8])
    requires register { length register.now ≡ 32 }
    requires room { length reply.old + 568 ≤ 4096 }
    ensures text { reply.new ≡ reply.old ++ text (tag_byte tag) (vreg_line number width register.now ∷ []) }
    ensures bound { length reply.new ≤ length reply.old + 568 }
{
    reply.push(&[tag.byte(), b' ']);
    reply.push(b"v");
    push_decimal(reply, u64::from(number.number()));
    push_elements(reply, register, width);
    reply.push(b"\n");
}

/// Append the vector length `vl` and the vector type `vtype`.
fn push_configuration(reply: &mut Reply, conf: VConf)
    requires { length reply.old + 46 ≤ 4096 }
    ensures text { reply.new ≡ reply.old
        ++ codes "vl=" ++ decimal conf.vl ++ codes " vtype=" ++ hex16 (vtype_number conf.vtype) }
    ensures bound { length reply.new ≤ length reply.old + 46 }
{
    reply.push(b"vl=");
    push_decimal(reply, u64::from(conf.vl()));
    reply.push(b" vtype=");
    push_hex16(reply, vtype_number(conf.vtype()));
}

/// Return 1 for a flag that is set, else 0.
fn flag_number(flag: bool) -> u64
    ensures { result ≡ flag_bit flag }
{
    if flag { 1 } else { 0 }
}

/// Append the fixed-point rounding mode `vxrm` and the saturation flag `vxsat`.
fn push_fixed_point(reply: &mut Reply, vxrm: RoundingMode, vxsat: bool)
    requires { length reply.old + 53 ≤ 4096 }
    ensures text { reply.new ≡ reply.old
        ++ codes " vxrm=" ++ decimal (rounding_number vxrm) ++ codes " vxsat=" ++ decimal (flag_bit vxsat) }
    ensures bound { length reply.new ≤ length reply.old + 53 }
{
    reply.push(b" vxrm=");
    push_decimal(reply, u64::from(vxrm.number()));
    reply.push(b" vxsat=");
    push_decimal(reply, flag_number(vxsat));
}

/// Append the vector control registers.
#[tactic(auto, unfolding(rv_model::specs::commands::Registers::vcsr_line))]
fn push_control_registers(reply: &mut Reply, state: &VState)
    requires { length reply.old + 127 ≤ 4096 }
    ensures text { reply.new ≡ reply.old ++ vcsr_line state.now }
    ensures bound { length reply.new ≤ length reply.old + 127 }
{
    push_configuration(reply, state.conf);
    reply.push(b" vstart=");
    push_decimal(reply, u64::from(state.vstart));
    push_fixed_point(reply, state.vxrm, state.vxsat);
}

/// Append the reply to `vcsr`, for example `vl=3 vtype=00000000000000d0 vstart=0 vxrm=0 vxsat=0`.
pub fn vcsr_line(reply: &mut Reply, tag: Tag, state: &VState)
    requires { length reply.old + 130 ≤ 4096 }
    ensures text { reply.new ≡ reply.old ++ text (tag_byte tag) (vcsr_line state.now ∷ []) }
    ensures bound { length reply.new ≤ length reply.old + 130 }
{
    reply.push(&[tag.byte(), b' ']);
    push_control_registers(reply, state);
    reply.push(b"\n");
}
