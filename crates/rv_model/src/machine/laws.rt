//! Laws about machines, and small examples.
ghost use Rattle.rv_model.specs.machine.AbsentUsers.{AbsentUsersHaveNothing, AbsentUsersLeaveTheUnit};
ghost use Rattle.rv_model.specs.machine.AbsentUsers.{UserEventsKeepNothing, ScriptsKeepNothing};
ghost use Rattle.rv_model.specs.machine.ConfiguredUsers.{UserEventsKeepConfigurations, ScriptsKeepConfigurations};
ghost use Rattle.rv_model.specs.machine.ConfiguredUsers.{SlicesAddUpAfterScripts, UsersAreConfigured};
ghost use Rattle.rv_model.specs.machine.Cuts.{CutsAreInvisible, SliceKeepsConfiguration, SlicesAddUp};
ghost use Rattle.rv_model.specs.machine.Laws.{EachUserAlone, EachNewUserAlone, EachUserEndsAlone, OthersChangeNothing};
ghost use Rattle.rv_model.specs.machine.Laws.{EqualPartsAnswerAlike, MachinesStayEight};
ghost use Rattle.rv_model.specs.machine.Purge.{OthersCanBePurged, OthersCanBeReplaced, OthersCanBePurgedFromAll};
ghost use Rattle.rv_model.specs.machine.Purge.{RunsReplaceSlices, OnlySlicesAreReplaced};
ghost use Rattle.rv_model.specs.machine.Purge.{SmallScriptsArePurged, SmallScriptsGetRuns};
ghost use Rattle.rv_model.specs.machine.Refusals.{ReasonsAreRefusals, RefusedUserEventsChangeNothing};
ghost use Rattle.rv_model.specs.machine.Refusals.{RefusedLinesChangeNothing};
ghost use Rattle.rv_model.specs.step.Effects.{FaultsWriteNoRegister, X0Unchanged, OutputGrowsWithin};
ghost use Rattle.rv_model.specs.step.Effects.{StepKeepsConfiguration, StepKeepsPermissions};
ghost use Rattle.rv_model.specs.machine.Examples.{SmallScriptsPrint};
ghost use Rattle.rv_model.specs.machine.World.{new_world};
ghost use Rattle.rv_model.specs.machine.Turns.{NobodyHasTwoTurns, EachRunningUserHasATurn, GrantsAreInTurn};
ghost use Rattle.rv_model.specs.machine.Turns.{ScriptsAreInTurn, OneTurnBetweenTurns};

/// Each user's lines are those of a private machine that receives only the user's own commands and slices. This holds
/// for any eight machines at the start, and for new ones.
pub fn each_user_alone()
    ensures from_any { EachUserAlone }
    ensures from_new { EachNewUserAlone }
    ensures end_state { EachUserEndsAlone }
    ensures others { OthersChangeNothing }
    ensures equal { EqualPartsAnswerAlike }
    ensures eight { MachinesStayEight }
{}

/// If a script has no `slices`, a user's lines don't change if the lines of all other users, and the operator's lines
/// `run` for them, are removed. In any script, lines `run` can replace each `slices` first, one for each slice that it
/// grants.
pub fn others_can_be_purged()
    ensures without_slices { OthersCanBePurged }
    ensures others { OthersCanBeReplaced }
    ensures runs { RunsReplaceSlices }
    ensures replaced { OnlySlicesAreReplaced }
    ensures any_script { OthersCanBePurgedFromAll }
    ensures examples { SmallScriptsArePurged }
    ensures example_runs { SmallScriptsGetRuns }
{}

/// A small script prints the expected lines, and an empty script prints nothing.
pub fn small_scripts_print()
    ensures { SmallScriptsPrint }
{}

/// An instruction that faults writes neither a scalar register nor the program counter; no instruction changes x0.
pub fn preserved_registers()
    ensures fault { FaultsWriteNoRegister }
    ensures first { X0Unchanged }
{}

/// No instruction removes a byte from the output buffer, and none adds more bytes than the buffer has room for.
pub fn output_only_grows()
    ensures { OutputGrowsWithin }
{}

/// If the vector type allows the vector length before an instruction, the same is true after it. No instruction maps an
/// address or changes its permissions.
pub fn preserved_configurations()
    ensures length { StepKeepsConfiguration }
    ensures permissions { StepKeepsPermissions }
{}

/// Consecutive slices print the same lines and leave the same machine as one slice with the sum of their ticks. So the
/// output doesn't show where a slice cut an instruction, unless the instruction had overwritten its own word before the
/// cut. The law assumes a vector length that the vector type allows. New machines have such a length, and each event
/// preserves that, so the law holds after any script.
pub fn slices_add_up()
    ensures cuts { CutsAreInvisible }
    ensures slices { SlicesAddUp }
    ensures configuration { SliceKeepsConfiguration }
    ensures new { UsersAreConfigured new_world }
    ensures user_events { UserEventsKeepConfigurations }
    ensures scripts { ScriptsKeepConfigurations }
    ensures after_scripts { SlicesAddUpAfterScripts }
{}

/// No user with a running program waits for ever. The operator's slices are granted in turn. While such a user has no
/// turn, no other user has two; in a script, this covers the time between two turns of the user. One of any eight turns
/// in a row is the user's.
pub fn turns_are_fair()
    ensures at_most_one { NobodyHasTwoTurns }
    ensures in_eight { EachRunningUserHasATurn }
    ensures grants { GrantsAreInTurn }
    ensures scripts { ScriptsAreInTurn }
    ensures between { OneTurnBetweenTurns }
{}

/// A refused command, whose reply starts with E, changes nothing: no user's machine, no turn, and not the record of the
/// vector unit with its counts.
pub fn refusals_change_nothing()
    ensures reasons { ReasonsAreRefusals }
    ensures user_events { RefusedUserEventsChangeNothing }
    ensures lines { RefusedLinesChangeNothing }
{}

/// An absent user doesn't own the vector unit and has no saved state; this holds in a new world and after any events.
/// So no event of an absent user, `enter` included, changes the record of the unit.
pub fn absent_users_have_nothing()
    ensures new { AbsentUsersHaveNothing new_world }
    ensures user_events { UserEventsKeepNothing }
    ensures scripts { ScriptsKeepNothing }
    ensures unit { AbsentUsersLeaveTheUnit }
{}
