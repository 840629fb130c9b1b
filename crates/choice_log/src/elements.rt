//! Lines of the elements that a seed chooses.
ghost use Rattle.std.specs.Prelude.{◌≡◌, ◌+◌, ◌++◌, ◌<◌, ◌≤◌, length};
ghost use Rattle.rv_model.specs.vector.Groups.{width_bytes};
ghost use Rattle.open_choices.specs.Fills.{is_filled};
ghost use Rattle.open_choices.specs.Groups.{fill_of_group};
ghost use Rattle.open_choices.specs.Seeds.{has_kind, is_chosen};
ghost use Rattle.choice_log.specs.ChoiceLines.{element_line, element_texts, group_elements, is_listed, is_of_kind, spaced};

use crate::numbers::push_spaced;
use lane_arith::bit_of;
use line_text::{Reply, push_decimal};
use open_choices::{Choices, Kinds, OpenGroup, SeedChoices};
use reg_groups::registers;
use rv_model::{GROUP_BYTES, Sew, VLENB};

/// Return the number of bytes of an element of a group.
fn element_bytes(group: &OpenGroup) -> usize
    ensures value { result ≡ width_bytes (fill_of_group group.now).group.width }
    ensures some { 0 < result }
{
    let bytes = match group.sew {
        Sew::E8 => 1,
        Sew::E16 => 2,
        Sew::E32 => 4,
        Sew::E64 => 8,
    };
    if group.wide { 2 * bytes } else { bytes }
}

/// Return the number of elements of a group.
fn group_elements(group: &OpenGroup) -> usize
    ensures value { result ≡ group_elements (fill_of_group group.now) }
    ensures most { result ≤ GROUP_BYTES }
{
    let bytes = VLENB * registers(group.emul) as usize;
    (bytes / element_bytes(group)).min(GROUP_BYTES)
}

/// Return whether an element of a group is open.
fn is_filled(group: &OpenGroup, e: usize) -> bool
    requires { e < GROUP_BYTES }
    ensures { result ≡ is_filled (fill_of_group group.now) e }
{
    let in_body = group.start <= e && e < group.end;
    let is_enabled = group.unmasked || bit_of(&group.mask, e);
    (group.masked_off && in_body && !is_enabled) || (group.tail && group.end <= e)
}

/// Return whether choices are made of the kind of an element of a group.
fn has_kind(kinds: Kinds, group: &OpenGroup, e: usize) -> bool
    ensures { result ≡ has_kind kinds (fill_of_group group.now) e }
{
    if group.end <= e {
        kinds.tail
    } else {
        kinds.masked
    }
}

/// Return whether choices take an element, if it is open.
fn is_chosen(choices: &SeedChoices, e: usize) -> bool
    ensures { result ≡ is_chosen choices.now.seed choices.now.number e }
{
    choices.bits(e, 1) % 2 != 0
}

/// Return whether an element of a group is in the tail, if `tail`, or before the tail.
fn is_of_kind(tail: bool, group: &OpenGroup, e: usize) -> bool
    ensures { result ≡ is_of_kind tail (fill_of_group group.now) e }
{
    if tail { group.end <= e } else { e < group.end }
}

/// Return whether choices take an open element of a group, in the tail or masked off.
fn is_listed(tail: bool, choices: &SeedChoices, group: &OpenGroup, e: usize) -> bool
    requires { e < GROUP_BYTES }
    ensures { result ≡ is_listed tail choices.now.seed choices.now.number (fill_of_group group.now) e }
{
    is_of_kind(tail, group, e)
        && is_filled(group, e)
        && has_kind(choices.seed.kinds, group, e)
        && is_chosen(choices, e)
}

/// Append a space and the number of an element.
fn push_element(reply: &mut Reply, e: usize)
    requires element { e < GROUP_BYTES }
    requires room { length reply.old + 21 ≤ 4096 }
    ensures text { reply.new ≡ reply.old ++ spaced e }
    ensures bound { length reply.new ≤ length reply.old + 4 }
{
    push_spaced(reply, e as u64);
}

/// Append the numbers of the open elements of a group that choices take, in the tail or masked off.
fn push_elements(reply: &mut Reply, tail: bool, choices: &SeedChoices, group: &OpenGroup)
    requires { length reply.old ≡ 0 }
    ensures text { reply.new ≡ element_texts tail choices.now.seed choices.now.number (fill_of_group group.now) }
    ensures bound { length reply.new ≤ 1024 }
{
    for e in 0..group_elements(group) {
        if is_listed(tail, choices, group, e) {
            push_element(reply, e);
        }
    }
}

/// Append the line of the elements of a kind, if there are any.
pub(crate) fn push_element_line(
    reply: &mut Reply,
    tail: bool,
    choices: &SeedChoices,
    group: &OpenGroup,
)
    requires { length reply.old + 1100 ≤ 4096 }
    ensures text { reply.new ≡ reply.old
        ++ element_line tail choices.now.seed choices.now.number (fill_of_group group.now) }
    ensures bound { length reply.new ≤ length reply.old + 1100 }
{
    let mut elements = Reply::new();
    push_elements(&mut elements, tail, choices, group);
    if elements.as_slice().is_empty() {
        return;
    }
    push_decimal(reply, choices.number);
    reply.push(if tail { b" tail" } else { b" masked" });
    reply.push(elements.as_slice());
    reply.push(b"\n");
}
