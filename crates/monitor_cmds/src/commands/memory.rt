//! The commands for a user's memory: `map`, `poke` and `peek`.
ghost use Rattle.std.specs.Prelude.{◌≡◌, [], ◌∷◌, ◌++◌, ◌+◌, ◌≤◌, length};
ghost use Rattle.rv_model.specs.declared.commands.memory.MemoryCommand.TheVariants.{Poke, Peek};
ghost use Rattle.rv_model.specs.commands.Arguments.{address, byte_string, number_between};
ghost use Rattle.rv_model.specs.commands.Reading.{two_arguments};
ghost use Rattle.rv_model.specs.commands.Memory.{map_args, memory_named, peek_line};
ghost use Rattle.rv_model.specs.text.Lines.{text};
ghost use Rattle.rv_model.specs.text.Words.{words};
ghost use Rattle.monitor_cmds.specs.Tag.{tag_byte};

use crate::tag::Tag;
use line_text::{Arguments, Reply, address, count, done, permissions, push_bytes, push_hex16};
use rv_model::{ByteString, Count, MemoryCommand, PAGE_QUOTA, PageRange};

/// Return the group's command with a name and its arguments: `None` if the group has no command of this name, and
/// `Some(None)` if the arguments are wrong.
pub(crate) fn memory_named(name: &[u8], args: &[u8]) -> Option<Option<MemoryCommand>>
    ensures { result ≡ memory_named name.now (words args.now) }
{
    if name == b"map".as_slice() {
        return Some(map_args(args));
    }
    if name == b"poke".as_slice() {
        return Some(poke_args(args));
    }
    if name == b"peek".as_slice() {
        return Some(peek_args(args));
    }
    None
}

/// Parse the arguments of `map ADDR PAGES PERM`, with 1 to `PAGE_QUOTA` pages.
#[tactic(auto, unfolding(rv_model::specs::commands::Memory::map_args))]
fn map_args(args: &[u8]) -> Option<MemoryCommand>
    ensures { result ≡ map_args (words args.now) }
{
    let mut words = Arguments::new(args);
    let addr = address(words.next_argument()?)?;
    let count: Count<PAGE_QUOTA> = count(words.next_argument()?)?;
    let permissions = permissions(words.next_argument()?)?;
    let pages = PageRange::new(addr, count.get())?;
    done(words, MemoryCommand::Map { pages, permissions })
}

/// Parse the arguments of `poke ADDR HEX`.
#[tactic(auto, unfolding(rv_model::specs::commands::Reading::two_arguments))]
fn poke_args(args: &[u8]) -> Option<MemoryCommand>
    ensures { result ≡ two_arguments Poke address byte_string (words args.now) }
{
    let mut words = Arguments::new(args);
    let addr = address(words.next_argument()?)?;
    let bytes = ByteString::from_hex(words.next_argument()?)?;
    done(words, MemoryCommand::Poke { addr, bytes })
}

/// Parse the arguments of `peek ADDR N`, with 1 to 256 bytes.
#[tactic(auto, unfolding(rv_model::specs::commands::Reading::two_arguments))]
fn peek_args(args: &[u8]) -> Option<MemoryCommand>
    ensures { result ≡ two_arguments Peek address (number_between 1 256) (words args.now) }
{
    let mut words = Arguments::new(args);
    let addr = address(words.next_argument()?)?;
    let count = count(words.next_argument()?)?;
    done(words, MemoryCommand::Peek { addr, count })
}

/// Append the reply to `peek`: the address, and 1 to 256 bytes from it on in hexadecimal, for example
/// `peek 0000000000010000 00ff`.
#[tactic(auto, unfolding(rv_model::specs::commands::Memory::peek_line))]
pub fn peek_line(reply: &mut Reply, tag: Tag, addr: u64, bytes: &[u8])
    requires few { length bytes.now ≤ 256 }
    requires room { length reply.old + 537 ≤ 4096 }
    ensures text { reply.new ≡ reply.old ++ text (tag_byte tag) (peek_line addr bytes.now ∷ []) }
    ensures bound { length reply.new ≤ length reply.old + 537 }
{
    reply.push(&[tag.byte(), b' ']);
    reply.push(b"peek ");
    push_hex16(reply, addr);
    reply.push(b" ");
    push_bytes(reply, bytes);
    reply.push(b"\n");
}
