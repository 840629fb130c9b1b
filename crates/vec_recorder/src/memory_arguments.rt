//! Values of `--memory`, `ADDR:PERMS:FILE`.
ghost use Rattle.std.specs.Prelude.{◌≡◌, ◌⊎◌, IfErr, IfOk, MatchOption};
ghost use Rattle.std.specs.List.{AllZip, Any};
ghost use Rattle.clap.specs.Walk.{texts};
ghost use Rattle.vec_recorder.specs.MemoryArguments.{IsMemoryAt, IsMemoryOf, NamesNone};
ghost use Rattle.vec_recorder.specs.Statuses.{program_status};
ghost use Rattle.vec_recorder.specs.declared.program_fault.ProgramFault.TheVariants.{NoMemory};

use crate::program_fault::ProgramFault;
use line_text::{address, permissions};
use rv_model::Permissions;
use std::alloc::Allocator;

/// A memory file: the first address of its bytes in memory, the permissions of its pages, and its path.
#[derive(Clone, Copy)]
pub(crate) struct MemoryPath<'a> {
    pub addr: u64,
    pub permissions: Permissions,
    pub path: &'a str,
}

/// Split a value of `--memory` at its first two colons; return `None` if it is malformed.
fn memory_path<'a>(word: &'a str) -> Option<MemoryPath<'a>>
    ensures { MatchOption result (NamesNone word.entry.now) (IsMemoryOf word.entry.now) }
{
    let (addr, rest) = word.split_once(':')?;
    let (allowed, path) = rest.split_once(':')?;
    Some(MemoryPath {
        addr: address(addr.as_bytes())?,
        permissions: permissions(allowed.as_bytes())?,
        path,
    })
}

/// Split each value of `--memory`, in order. Return `MemoryArgument` for a malformed value, and `NoMemory` if memory runs
/// out.
pub(crate) fn memory_paths<'a, A: Allocator>(
    alloc: A,
    arguments: &[&'a str],
) -> Result<Vec<MemoryPath<'a>, A>, ProgramFault<'a>>
    ensures paths { IfOk result (λ paths. AllZip IsMemoryAt arguments.now paths.items) }
    ensures refused { IfErr result (λ fault. (fault ≡ NoMemory)
        ⊎ ((program_status fault ≡ 2) × Any NamesNone (texts arguments.now))) }
{
    let mut paths = Vec::new(alloc);
    for word in arguments {
        let Some(path) = memory_path(*word) else {
            return Err(ProgramFault::MemoryArgument(*word));
        };
        paths.push(path)?;
    }
    Ok(paths)
}
