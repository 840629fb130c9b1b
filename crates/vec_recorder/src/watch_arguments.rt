//! Values of `--watch`, `ADDR:LEN`.
ghost use Rattle.std.specs.Prelude.{◌≡◌, ◌⊎◌, IfErr, IfOk, MatchOption};
ghost use Rattle.std.specs.List.{AllZip, Any};
ghost use Rattle.clap.specs.Walk.{texts};
ghost use Rattle.vec_recorder.specs.Statuses.{program_status};
ghost use Rattle.vec_recorder.specs.WatchArguments.{IsPlaceAt, IsPlaceOf, NamesNoPlace};
ghost use Rattle.vec_recorder.specs.declared.program_fault.ProgramFault.TheVariants.{NoMemory};

use crate::numbers::length_number;
use crate::program_fault::ProgramFault;
use line_text::address;
use memory_changes::Place;
use std::alloc::Allocator;

/// Split a value of `--watch` at its first colon; return `None` if it is malformed.
fn watched_place(word: &str) -> Option<Place>
    ensures { MatchOption result (NamesNoPlace word.now) (IsPlaceOf word.now) }
{
    let (first, second) = word.split_once(':')?;
    let addr = address(first.as_bytes())?;
    let len = length_number(second.as_bytes())?;
    Place::new(addr, len)
}

/// Split each value of `--watch`, in order. Return `WatchArgument` for a malformed value, and `NoMemory` if memory runs
/// out.
pub(crate) fn watched_places<'a, A: Allocator>(
    alloc: A,
    arguments: &[&'a str],
) -> Result<Vec<Place, A>, ProgramFault<'a>>
    ensures places { IfOk result (λ places. AllZip IsPlaceAt arguments.now places.items) }
    ensures refused { IfErr result (λ fault. (fault ≡ NoMemory)
        ⊎ ((program_status fault ≡ 2) × Any NamesNoPlace (texts arguments.now))) }
{
    let mut places = Vec::new(alloc);
    for word in arguments {
        let Some(place) = watched_place(*word) else {
            return Err(ProgramFault::WatchArgument(*word));
        };
        places.push(place)?;
    }
    Ok(places)
}
