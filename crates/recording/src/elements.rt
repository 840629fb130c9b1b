//! Numbers of active, masked-off and tail elements of an instruction.
ghost use Rattle.std.specs.Prelude.{◌≡◌, ◌≤◌, ◌-◌, ℕ, List, false, true};
ghost use Rattle.recording.specs.Classes.{active_count, body, extent_end, extent_start, moved, most, tail_end};
ghost use Rattle.recording.specs.Runs.{execution_counts};
ghost use Rattle.recording.specs.declared.class.Class.TheVariants.{Length, Other};

use crate::class::{Class, Extent};
use crate::pre_state::PreState;
use crate::sums::Sums;
use lane_arith::Body;
use mask_unit::count;
use reg_groups::register_count;
use rv_model::instructions::operations::RegisterCount;
use rv_model::{GROUP_BYTES, VConf, VLENB};

/// Return VLMAX of a configuration, or 0 with `vill`.
#[inline(always)]
fn most(conf: VConf) -> usize
    ensures { result ≡ most conf }
{
    match conf.vtype() {
        Some(vtype) => usize::from(vtype.vlmax()),
        None => 0,
    }
}

/// Return the number of SEW elements in `count` registers, or 0 with `vill`.
fn moved(count: RegisterCount, conf: VConf) -> usize
    ensures { result ≡ moved count conf }
{
    match conf.vtype() {
        Some(vtype) => 8 * usize::from(register_count(count)) * VLENB
            / usize::from(vtype.sew.bits()),
        None => 0,
    }
}

/// Return the start and the end of an extent's body, and the end of its tail. Only the bytes of a mask have a tail.
#[inline(always)]
fn extent_bounds(extent: Extent, start: usize, conf: VConf) -> (usize, usize, usize)
    ensures { result ≡ (extent_start extent start, extent_end extent start conf conf.vl, extent_end extent start conf (most conf)) }
{
    let vl = usize::from(conf.vl());
    match extent {
        Extent::MaskBytes => (start, vl.div_ceil(8), most(conf).div_ceil(8)),
        Extent::Elements { count } => (start, usize::from(count), usize::from(count)),
        Extent::Registers { count } => (start, moved(count, conf), moved(count, conf)),
        Extent::One => (0, 1, 1),
        Extent::First => (0, usize::from(start < vl), usize::from(start < vl)),
    }
}

/// Return the number of active elements of a masked body.
#[tactic(auto, using(crate::proofs::ActiveElements::set_are_active))]
fn active_under(found: &PreState, end: usize) -> usize
    requires { end ≤ GROUP_BYTES }
    ensures { result
        ≡ active_count (record { unmasked = false; mask = found.now.mask; start = found.now.start; end = end }) }
{
    count(
        &Body::new(false, &found.mask, found.start, end),
        &found.mask,
    )
}

/// Return the number of active elements of an unmasked body.
#[tactic(auto, using(crate::proofs::ActiveElements::all_are_active))]
fn active_of_all(start: usize, end: usize) -> usize
    ensures { (mask : List ℕ) → result ≡ active_count (record { unmasked = true; mask = mask; start = start; end = end }) }
{
    end.saturating_sub(start)
}

/// Return the number of active elements of a body from vstart on.
#[inline(always)]
fn active(unmasked: bool, found: &PreState, end: usize) -> usize
    requires { end ≤ GROUP_BYTES }
    ensures { result
        ≡ active_count (record { unmasked = unmasked; mask = found.now.mask; start = found.now.start; end = end }) }
{
    if unmasked {
        active_of_all(found.start, end)
    } else {
        active_under(found, end)
    }
}

/// Return the counts of one execution: its ticks, its body elements from `start` to `end` with `active` active ones,
/// and its tail elements from `end` to `tail_end`.
#[inline(always)]
fn counted_once(ticks: usize, start: usize, end: usize, active: usize, tail_end: usize) -> Sums
    ensures { result ≡ record { times = 1; ticks = ticks; active = active; masked = end - start - active; tail = tail_end - end } }
{
    Sums {
        times: 1,
        ticks: ticks as u64,
        active: active as u64,
        masked: end.saturating_sub(start).saturating_sub(active) as u64,
        tail: tail_end.saturating_sub(end) as u64,
    }
}

/// Return the counts of an instruction with a body from vstart to vl.
#[inline(always)]
fn with_length(unmasked: bool, found: &PreState, conf: VConf, ticks: usize) -> Sums
    ensures { result ≡ execution_counts ticks (body (Length unmasked) found.now.mask found.now.start conf) (most conf) }
{
    let end = usize::from(conf.vl());
    let active = active(unmasked, found, end);
    counted_once(ticks, found.start, end, active, most(conf))
}

/// Return the counts of an instruction with another body.
#[inline(always)]
fn with_extent(extent: Extent, found: &PreState, conf: VConf, ticks: usize) -> Sums
    ensures { result ≡ execution_counts ticks (body (Other extent) found.now.mask found.now.start conf)
        (tail_end (Other extent) found.now.start conf) }
{
    let (start, end, tail_end) = extent_bounds(extent, found.start, conf);
    let active = active_of_all(start, end);
    counted_once(ticks, start, end, active, tail_end)
}

/// Return the counts of an instruction from its class, the state before it, the configuration after it, and its ticks.
#[inline(always)]
#[tactic(auto, using(crate::proofs::ActiveElements::no_elements))]
pub(crate) fn with_elements(class: Class, found: &PreState, conf: VConf, ticks: usize) -> Sums
    ensures { result ≡ execution_counts ticks (body class found.now.mask found.now.start conf)
        (tail_end class found.now.start conf) }
{
    match class {
        Class::Plain | Class::Link => Sums::plain(ticks),
        Class::Length { unmasked } => with_length(unmasked, found, conf, ticks),
        Class::Other { extent } => with_extent(extent, found, conf, ticks),
    }
}
