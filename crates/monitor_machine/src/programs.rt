//! Execution of commands on programs in a user's memory.
ghost use Rattle.std.specs.Prelude.{◌≡◌, ◌*◌, ◌≤◌, Some, None, true, length, MatchOption};
ghost use Rattle.std.specs.Int.{to_le_bytes, w32};
ghost use Rattle.rv_model.specs.declared.memory.Access.TheVariants.{Monitor};
ghost use Rattle.rv_model.specs.images.Faults.{first_fault};
ghost use Rattle.rv_model.specs.memory.Memory.{can_access, put_bytes};
ghost use Rattle.rv_model.specs.commands.Programs.{
  image_named as image_named_of,
  loading,
  loads,
  assembles,
  shows_instructions,
  program_command,
};
ghost use Rattle.user_mem.specs.Users.{memory_of_user, with_memory};
ghost use Rattle.monitor_machine.specs.Images.{named_images};
ghost use Rattle.monitor_machine.specs.Parts.{present};
ghost use Rattle.monitor_machine.specs.CommandOutcomes.{LeavesMemory, LeavesParts, MovesParts, PrintsFromMemory, PrintsFromParts};

use crate::answers::refuse;
use crate::context::Context;
use crate::image::Image;
use crate::parts::Parts;
use crate::trace::Trace;
use crate::user_adapters::memory_law;
use elf_load::{Plan, check, place};
use monitor_cmds::{Reply, Tag};
use rv_asm::assemble;
use rv_model::{Access, Count, LinePart, ProgramCommand, Refusal, User};
use std::alloc::Allocator;
use user_mem::Pool;

/// Number of bytes of an instruction.
const WORD_SIZE: usize = 4;

/// Maximum number of instructions that one command shows.
const MAX_SHOWN: usize = 16;

/// Execute a command on programs in the memory of a user who has entered, and replace the reply.
#[tactic(auto, unfolding(rv_model::specs::commands::Programs::program_command), using(crate::proofs::Steps::programs))]
pub(crate) fn execute<A: Allocator>(
    images: &[Image<'_>],
    parts: &mut Parts<'_, '_, '_, A>,
    trace: &mut Trace<A>,
    command: &ProgramCommand<'_>,
    reply: &mut Reply,
)
    requires present { parts.old.context.now.entered ≡ true }
    ensures next { LeavesParts (program_command (named_images images.now) command.now) parts.old trace.old parts.new trace.new }
    ensures parts { MovesParts (program_command (named_images images.now) command.now) parts.old trace.old parts.new }
    ensures reply { PrintsFromParts (program_command (named_images images.now) command.now) parts.old trace.old reply.new }
{
    let user = parts.user;
    match command {
        ProgramCommand::Load(name) => load(images, parts, trace, name, reply),
        ProgramCommand::Asm { addr, text } => {
            assemble_at(&mut *parts.pool, user, *addr, text, reply)
        }
        ProgramCommand::Dis { addr, count } => {
            show_instructions(&*parts.pool, user, *addr, *count, reply)
        }
    }
}

/// Write a 32-bit word to mapped pages, least significant byte first.
fn write_word<A: Allocator>(pool: &mut Pool<A>, user: User, addr: u64, word: u32)
    requires { can_access Monitor (memory_of_user pool.old user) addr 4 ≡ true }
    ensures { pool.new ≡ with_memory pool.old user
        (put_bytes (memory_of_user pool.old user) addr (to_le_bytes w32 word)) }
{
    let Ok(()) = pool.write(user, addr, Access::Monitor, &word.to_le_bytes()) else {
        unreachable!();
    };
}

/// `asm`: write an instruction's word to mapped pages, regardless of their permissions.
#[tactic(auto, using(crate::proofs::Steps::assembling))]
fn assemble_at<A: Allocator>(
    pool: &mut Pool<A>,
    user: User,
    addr: u64,
    instruction: &LinePart<'_>,
    reply: &mut Reply,
)
    ensures next { LeavesMemory (assembles addr instruction.now) pool.old pool.new user }
    ensures others { pool.new ≡ with_memory pool.old user (memory_of_user pool.new user) }
    ensures reply { PrintsFromMemory (assembles addr instruction.now) pool.old user reply.new }
{
    // For the proof alone: the pool has a memory of the user.
    memory_law(&*pool, user);
    let Ok(()) = pool.check(user, addr, WORD_SIZE, Access::Monitor) else {
        refuse(reply, user, Refusal::NotMapped);
        return;
    };
    match assemble(instruction.as_slice()) {
        Ok(word) => {
            write_word(pool, user, addr, word);
            reply.clear();
            monitor_cmds::asm_line(reply, Tag::User(user), addr, word);
        }
        Err(fault) => refuse(reply, user, Refusal::Assembler(fault.column)),
    }
}

/// Show `count` instructions of mapped pages; `buffer` has 4 bytes for each.
#[tactic(auto, using(crate::proofs::ProgramOutcomes::shows_accepted, crate::proofs::ProgramOutcomes::shows_refused))]
fn show_words<A: Allocator>(
    pool: &Pool<A>,
    user: User,
    addr: u64,
    count: usize,
    buffer: &mut [u8],
    reply: &mut Reply,
)
    requires few { count ≤ 16 }
    requires size { length buffer.old ≡ 4 * count }
    ensures next { LeavesMemory (shows_instructions addr count) pool.now pool.now user }
    ensures reply { PrintsFromMemory (shows_instructions addr count) pool.now user reply.new }
{
    match pool.read(user, addr, Access::Monitor, buffer) {
        Ok(()) => {
            reply.clear();
            monitor_cmds::dis_lines(reply, Tag::User(user), addr, count, buffer);
        }
        Err(_) => refuse(reply, user, Refusal::NotMapped),
    }
}

/// `dis`: show words of mapped pages with their assembler text, regardless of the pages'
/// permissions.
fn show_instructions<A: Allocator>(
    pool: &Pool<A>,
    user: User,
    addr: u64,
    count: Count<MAX_SHOWN>,
    reply: &mut Reply,
)
    ensures next { LeavesMemory (shows_instructions addr count) pool.now pool.now user }
    ensures reply { PrintsFromMemory (shows_instructions addr count) pool.now user reply.new }
{
    let count = count.get();
    let mut buffer = [0; MAX_SHOWN * WORD_SIZE];
    show_words(
        pool,
        user,
        addr,
        count,
        &mut buffer[..WORD_SIZE * count],
        reply,
    );
}

/// Return the bytes of the image with a name.
#[tactic(auto, unfolding(rv_model::specs::commands::Programs::image_named))]
fn image_named<'a>(images: &[Image<'a>], name: &[u8]) -> Option<&'a [u8]>
    ensures { MatchOption result (image_named_of (named_images images.now) name.now ≡ None)
        (λ bytes. image_named_of (named_images images.now) name.now ≡ Some bytes.now) }
{
    for image in images {
        if image.name.as_bytes() == name {
            return Some(image.bytes);
        }
    }
    None
}

/// `load`: restart the user's machine with an image that has no fault.
fn load_plan<A: Allocator>(
    plan: &Plan<'_>,
    parts: &mut Parts<'_, '_, '_, A>,
    trace: &mut Trace<A>,
    reply: &mut Reply,
)
    requires sound { first_fault plan.now ≡ None }
    requires present { parts.old.context.now.entered ≡ true }
    ensures next { LeavesParts (loading plan.now None) parts.old trace.old parts.new trace.new }
    ensures parts { MovesParts (loading plan.now None) parts.old trace.old parts.new }
    ensures reply { PrintsFromParts (loading plan.now None) parts.old trace.old reply.new }
{
    let user = parts.user;
    // For the proof alone: the pool has a memory of the user.
    memory_law(&*parts.pool, user);
    match place(plan, user, &mut *parts.pool) {
        Ok(entry) => {
            *parts.context = Context::loaded(entry);
            trace.clear();
            parts.unit.discard(user);
            reply.clear();
            monitor_cmds::loaded_line(reply, Tag::User(user), entry, parts.pool.pages(user));
        }
        Err(_) => refuse(reply, user, Refusal::Quota),
    }
}

/// `load`: restart the user's machine with the memory of an image. A refused `load` changes
/// nothing.
#[tactic(auto, using(crate::proofs::Steps::loading))]
fn load<A: Allocator>(
    images: &[Image<'_>],
    parts: &mut Parts<'_, '_, '_, A>,
    trace: &mut Trace<A>,
    name: &LinePart<'_>,
    reply: &mut Reply,
)
    requires present { parts.old.context.now.entered ≡ true }
    ensures next { LeavesParts (loads (named_images images.now) name.now) parts.old trace.old parts.new trace.new }
    ensures parts { MovesParts (loads (named_images images.now) name.now) parts.old trace.old parts.new }
    ensures reply { PrintsFromParts (loads (named_images images.now) name.now) parts.old trace.old reply.new }
{
    let Some(image) = image_named(images, name.as_slice()) else {
        refuse(reply, parts.user, Refusal::ImageName);
        return;
    };
    match check(image) {
        Ok(plan) => load_plan(&plan, parts, trace, reply),
        Err(fault) => refuse(reply, parts.user, Refusal::ElfFault(fault)),
    }
}
