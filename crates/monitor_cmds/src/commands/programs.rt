//! The commands for programs in a user's memory: `load`, `asm` and `dis`.
ghost use Rattle.std.specs.Prelude.{Some, ◌≡◌, [], ◌∷◌, ◌++◌, ◌+◌, ◌*◌, ◌≤◌, length};
ghost use Rattle.rv_model.specs.declared.commands.programs.ProgramCommand.TheVariants.{Load, Dis};
ghost use Rattle.rv_model.specs.commands.Arguments.{instruction_address, number_between};
ghost use Rattle.rv_model.specs.commands.Reading.{one_argument, two_arguments};
ghost use Rattle.rv_model.specs.assembler.Table.{canonical};
ghost use Rattle.rv_model.specs.commands.Programs.{
  asm_args,
  programs_named,
  loaded_line,
  asm_line,
  dis_line,
  dis_lines,
  word_in,
};
ghost use Rattle.rv_model.specs.text.Lines.{tagged, text};
ghost use Rattle.rv_model.specs.text.Words.{words};
ghost use Rattle.monitor_cmds.specs.Tag.{tag_byte};

use crate::tag::Tag;
use line_text::{
    Arguments, Reply, count, done, instruction_address, push_decimal, push_hex8, push_hex16,
};
use rv_asm::{Text, text_of};
use rv_model::{LinePart, ProgramCommand};

/// Return the group's command with a name, its arguments, and the text after the first argument: `None` if the group
/// has no command of this name, and `Some(None)` if the arguments are wrong.
pub(crate) fn programs_named<'a>(
    name: &[u8],
    args: &'a [u8],
    text: &'a [u8],
) -> Option<Option<ProgramCommand<'a>>>
    ensures { result ≡ programs_named name.now (words args.now) text.now }
{
    if name == b"load".as_slice() {
        return Some(load_args(args));
    }
    if name == b"asm".as_slice() {
        return Some(asm_args(args, text));
    }
    if name == b"dis".as_slice() {
        return Some(dis_args(args));
    }
    None
}

/// Parse the argument of `load NAME`.
#[tactic(auto, unfolding(rv_model::specs::commands::Reading::one_argument))]
fn load_args<'a>(args: &'a [u8]) -> Option<ProgramCommand<'a>>
    ensures { result ≡ one_argument Load Some (words args.now) }
{
    let mut words = Arguments::new(args);
    let name = LinePart::new(words.next_argument()?);
    done(words, ProgramCommand::Load(name))
}

/// Parse the arguments of `asm ADDR TEXT`, where `text` is the rest of the line after the address.
#[tactic(auto, unfolding(rv_model::specs::commands::Programs::asm_args))]
fn asm_args<'a>(args: &'a [u8], text: &'a [u8]) -> Option<ProgramCommand<'a>>
    ensures { result ≡ asm_args (words args.now) text.now }
{
    let mut words = Arguments::new(args);
    let addr = instruction_address(words.next_argument()?)?;
    if text.is_empty() {
        return None;
    }
    let text = LinePart::new(text);
    Some(ProgramCommand::Asm { addr, text })
}

/// Parse the arguments of `dis ADDR N`, with 1 to 16 words (32 bits).
#[tactic(auto, unfolding(rv_model::specs::commands::Reading::two_arguments))]
fn dis_args<'a>(args: &'a [u8]) -> Option<ProgramCommand<'a>>
    ensures { result ≡ two_arguments Dis instruction_address (number_between 1 16) (words args.now) }
{
    let mut words = Arguments::new(args);
    let addr = instruction_address(words.next_argument()?)?;
    let count = count(words.next_argument()?)?;
    done(words, ProgramCommand::Dis { addr, count })
}

/// Append the entry address of a program and its number of pages.
#[tactic(auto, unfolding(rv_model::specs::commands::Programs::loaded_line))]
fn push_loaded(reply: &mut Reply, pc: u64, pages: usize)
    requires { length reply.old + 53 ≤ 4096 }
    ensures text { reply.new ≡ reply.old ++ loaded_line pc pages }
    ensures bound { length reply.new ≤ length reply.old + 53 }
{
    reply.push(b"loaded pc=");
    push_hex16(reply, pc);
    reply.push(b" pages=");
    push_decimal(reply, pages as u64);
}

/// Append the reply to `load`, for example `loaded pc=0000000000010078 pages=5`.
pub fn loaded_line(reply: &mut Reply, tag: Tag, pc: u64, pages: usize)
    requires { length reply.old + 57 ≤ 4096 }
    ensures text { reply.new ≡ reply.old ++ text (tag_byte tag) (loaded_line pc pages ∷ []) }
    ensures bound { length reply.new ≤ length reply.old + 57 }
{
    reply.push(&[tag.byte(), b' ']);
    push_loaded(reply, pc, pages);
    reply.push(b"\n");
}

/// Append an address and the 32-bit word at it, both in hexadecimal.
#[tactic(auto, unfolding(rv_model::specs::commands::Programs::asm_line))]
fn push_word(reply: &mut Reply, addr: u64, word: u32)
    requires { length reply.old + 25 ≤ 4096 }
    ensures text { reply.new ≡ reply.old ++ asm_line addr word }
    ensures bound { length reply.new ≡ length reply.old + 25 }
{
    push_hex16(reply, addr);
    reply.push(b" ");
    push_hex8(reply, word);
}

/// Append the reply to `asm`: the address and the assembled word, for example `0000000000010004 022180d7`.
pub fn asm_line(reply: &mut Reply, tag: Tag, addr: u64, word: u32)
    requires { length reply.old + 28 ≤ 4096 }
    ensures text { reply.new ≡ reply.old ++ text (tag_byte tag) (asm_line addr word ∷ []) }
    ensures bound { length reply.new ≡ length reply.old + 28 }
{
    reply.push(&[tag.byte(), b' ']);
    push_word(reply, addr, word);
    reply.push(b"\n");
}

/// Append the canonical assembly text of an instruction word.
fn push_instruction(reply: &mut Reply, word: u32)
    requires { length reply.old + 160 ≤ 4096 }
    ensures text { reply.new ≡ reply.old ++ canonical word }
    ensures bound { length reply.new ≤ length reply.old + 160 }
{
    let mut text = Text::new();
    text_of(word, &mut text);
    reply.push(text.as_bytes());
}

/// Append the line for one instruction: its address, its word, and its assembly text.
#[tactic(auto, unfolding(rv_model::specs::commands::Programs::dis_line))]
fn push_dis_line(reply: &mut Reply, tag: &Tag, addr: u64, word: u32)
    requires { length reply.old + 189 ≤ 4096 }
    ensures text { reply.new ≡ reply.old ++ tagged (tag_byte tag.now) (dis_line addr word) }
    ensures bound { length reply.new ≤ length reply.old + 189 }
{
    reply.push(&[tag.byte(), b' ']);
    push_word(reply, addr, word);
    reply.push(b" ");
    push_instruction(reply, word);
    reply.push(b"\n");
}

/// Return the little-endian 32-bit word at `index` of the words in `bytes`.
fn word_in(bytes: &[u8], index: usize) -> u32
    requires { 4 * index + 4 ≤ length bytes.now }
    ensures { result ≡ word_in bytes.now index }
{
    let start = 4 * index;
    let mut word = [0; 4];
    word.copy_from_slice(&bytes[start..start + 4]);
    u32::from_le_bytes(word)
}

/// Append the reply to `dis`: for each of 1 to 16 words in `bytes`, a line with its address, the word, and its
/// canonical assembly text, for example `0000000000010004 022180d7 vadd.vv v1, v2, v3`. The first word is at `addr`.
#[tactic(auto, unfolding(rv_model::specs::commands::Programs::dis_lines))]
pub fn dis_lines(reply: &mut Reply, tag: Tag, addr: u64, count: usize, bytes: &[u8])
    requires few { count ≤ 16 }
    requires bytes { 4 * count ≤ length bytes.now }
    requires room { length reply.old + 3024 ≤ 4096 }
    ensures text { reply.new ≡ reply.old ++ text (tag_byte tag) (dis_lines addr count bytes.now) }
    ensures bound { length reply.new ≤ length reply.old + 3024 }
{
    for index in 0..count {
        let at = addr.wrapping_add(4 * index as u64);
        push_dis_line(reply, &tag, at, word_in(bytes, index));
    }
}
