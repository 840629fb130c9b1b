//! The options for the log: `--log FILE`, `--from N`, `--to N`.
ghost use Rattle.std.specs.Prelude.{◌≡◌, IfErr};
ghost use Rattle.vec_recorder.specs.Statuses.{program_status};

use crate::command_line::Options;
use crate::program_fault::ProgramFault;

/// The start of the paths of devices. A log of any length may be written to a device.
const DEVICES: &str = "/dev/";

/// Check the options for the log. Return `LogAlone` for `--from` or `--to` without `--log`. Return `LogEnd` if
/// neither `--ticks` nor `--to` limits the log, and it isn't written to a device.
pub(crate) fn check_log<'a>(options: &Options<'_>) -> Result<(), ProgramFault<'a>>
    ensures { IfErr result (λ fault. program_status fault ≡ 2) }
{
    match options.log {
        None if options.from.is_some() || options.to.is_some() => Err(ProgramFault::LogAlone),
        Some(path)
            if options.ticks.is_none() && options.to.is_none() && !path.starts_with(DEVICES) => {
            Err(ProgramFault::LogEnd)
        }
        _ => Ok(()),
    }
}
