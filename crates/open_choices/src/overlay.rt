//! Ones in some of the open elements of a group, written after an instruction ("V" Vector Extension 1.0, section 3.4.3).
ghost use Rattle.std.specs.Prelude.{◌≡◌, ◌+◌, ◌*◌, ◌/◌, ◌%◌, ◌^◌, ◌<◌, ◌≤◌, ◌==◌, ◌&&◌, ◌||◌, ℕ, length, nat_le, not, true};
ghost use Rattle.rv_model.specs.elements.Elements.{in_body, is_enabled};
ghost use Rattle.rv_model.specs.elements.Formulas.{ones};
ghost use Rattle.rv_model.specs.lending.Writes.{Writes};
ghost use Rattle.rv_model.specs.vector.Groups.{registers, width_bytes};
ghost use Rattle.rv_model.specs.declared.vector.types.Sew.TheVariants as Sew;
ghost use Rattle.rv_model.specs.lending.GroupBounds.{IsInside};
ghost use Rattle.open_choices.specs.Fills.{is_filled, is_open, with_ones};
ghost use Rattle.open_choices.specs.Groups.{fill_of_group, is_ready, limited};
ghost use Rattle.open_choices.specs.Seeds.{has_kind};

use crate::choices::Choices;
use crate::open_group::OpenGroup;
use crate::seeds::Kinds;
use lane_arith::{Body, Lane, enabled_bits, filled_bits, put_results};
use reg_groups::{group_mut, registers};
use rv_model::{GROUP_BYTES, Sew, VECTOR_REGISTERS, VFile};

/// Return a bit for each of the `count` elements starting at `first`, set if the element is masked off and `masked_off`,
/// or is in the tail and `tail`. Bits above these are unspecified.
#[inline(always)]
fn open_bits(body: &Body<'_>, masked_off: bool, tail: bool, first: usize, count: usize) -> u64
    requires word { first % 32 + count ≤ 32 }
    requires inside { first + count ≤ GROUP_BYTES }
    requires some { 0 < count }
    ensures { (i : ℕ) → i < count → (result / 2 ^ i % 2 == 0) ≡ not (is_open body.now masked_off tail (first + i)) }
{
    let in_body = filled_bits(body, masked_off, first, count);
    let enabled = enabled_bits(body, first, count);
    let behind = Body::new(true, body.mask(), body.end(), GROUP_BYTES);
    let in_tail = filled_bits(&behind, tail, first, count);
    (in_body ^ (in_body & enabled)) ^ in_tail
}

/// Write ones to those elements of a group that are open and chosen, 32 bytes at a time.
#[inline(always)]
fn fill_elements<L: Lane, C: Choices>(
    choices: &C,
    body: &Body<'_>,
    masked_off: bool,
    tail: bool,
    group: &mut [u8],
)
    requires whole { length group.old % 32 ≡ 0 }
    requires most { length group.old ≤ GROUP_BYTES }
    ensures { Writes (width_bytes L.width) (λ i. is_open body.now masked_off tail i && C.takes choices.now i)
        (λ i. ones L.width) group.old group.new }
{
    let count = L::count();
    let whole = group.len() / 32;
    for c in 0..whole {
        let first = count * c;
        let open = open_bits(body, masked_off, tail, first, count);
        let taken = open & choices.bits(first, count);
        put_results::<L>(L::repeated(L::all_ones()), taken, 0, 32 * c, group);
    }
}

/// Write ones to those elements of a group of registers that are open and chosen.
fn fill_registers<L: Lane, C: Choices>(choices: &C, group: &OpenGroup, file: &mut VFile)
    requires inside { IsInside group.now.first group.now.emul }
    requires most { group.now.emul ≤ 64 }
    requires end { group.now.end ≤ GROUP_BYTES }
    ensures { L.width ≡ (fill_of_group group.now).group.width → file.new ≡ with_ones (fill_of_group group.now)
        (λ i. is_filled (fill_of_group group.now) i && C.takes choices.now i) file.old }
{
    let body = Body::new(group.unmasked, &group.mask, group.start, group.end);
    let bytes = group_mut(file, group.first, group.emul);
    fill_elements::<L, C>(choices, &body, group.masked_off, group.tail, bytes);
}

/// Write ones to those elements of a group that are open and chosen, whatever the width of its elements is.
fn fill_group<C: Choices>(choices: &C, group: &OpenGroup, file: &mut VFile)
    requires inside { IsInside group.now.first group.now.emul }
    requires most { group.now.emul ≤ 64 }
    requires end { group.now.end ≤ GROUP_BYTES }
    requires width { group.now.wide ≡ true → group.now.sew ≡ Sew.E64 → ⊥ }
    ensures { file.new ≡ with_ones (fill_of_group group.now)
        (λ i. is_filled (fill_of_group group.now) i && C.takes choices.now i) file.old }
{
    match (group.sew, group.wide) {
        (Sew::E8, false) => fill_registers::<u8, C>(choices, group, file),
        (Sew::E8, true) | (Sew::E16, false) => fill_registers::<u16, C>(choices, group, file),
        (Sew::E16, true) | (Sew::E32, false) => fill_registers::<u32, C>(choices, group, file),
        _ => fill_registers::<u64, C>(choices, group, file),
    }
}

/// Return whether a group lies inside the registers, and its elements have at most 64 bits.
fn is_ready(group: &OpenGroup) -> bool
    ensures { result ≡ is_ready group.now }
{
    group.first.number() + registers(group.emul) <= VECTOR_REGISTERS as u32
        && group.emul <= 64
        && group.end <= GROUP_BYTES
        && !(group.wide && matches!(group.sew, Sew::E64))
}

/// Return a group whose masked-off elements and tail are open only to choices of these kinds.
fn limited(group: &OpenGroup, kinds: Kinds) -> OpenGroup
    ensures { result ≡ limited group.now kinds }
{
    OpenGroup {
        masked_off: group.masked_off && kinds.masked,
        tail: group.tail && kinds.tail,
        ..*group
    }
}

/// Write ones to the elements of the group of an instruction that ran that are chosen and of these kinds.
pub fn choose_ones<C: Choices>(choices: &C, kinds: Kinds, group: &OpenGroup, file: &mut VFile)
    ensures { is_ready group.now ≡ true → file.new ≡ with_ones (fill_of_group group.now)
        (λ i. is_filled (fill_of_group group.now) i && (C.takes choices.now i && has_kind kinds (fill_of_group group.now) i)) file.old }
{
    let some = limited(group, kinds);
    // The group of an instruction that ran is ready; the proof needs the test.
    if is_ready(&some) {
        fill_group(choices, &some, file);
    }
}
