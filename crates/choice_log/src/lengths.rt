//! Lines of the lengths that a seed chooses.
ghost use Rattle.std.specs.Prelude.{◌≡◌, ◌+◌, ◌++◌, ◌≤◌, length};
ghost use Rattle.std.specs.Option.{option_map_or};
ghost use Rattle.rv_model.specs.vector.Groups.{vlmax};
ghost use Rattle.open_choices.specs.Seeds.{chosen_length, chosen_trim};
ghost use Rattle.choice_log.specs.ChoiceLines.{length_line, trim_line, vset_line};

use crate::numbers::push_spaced;
use line_text::{Reply, push_decimal};
use open_choices::{Seed, choose_length, choose_trim};
use rv_model::{Reg, RequestedLength, Scalar, VConf};

/// Append the line of a vset instruction with this AVL and VLMAX whose step leaves a length, if another one is chosen.
fn push_vset(reply: &mut Reply, number: u64, avl: u64, most: u64, old: u64, left: u64)
    requires { length reply.old + 100 ≤ 4096 }
    ensures text { reply.new ≡ reply.old ++ vset_line number avl most old left }
    ensures bound { length reply.new ≤ length reply.old + 100 }
{
    if left == old {
        return;
    }
    push_decimal(reply, number);
    reply.push(b" length");
    push_spaced(reply, avl);
    push_spaced(reply, most);
    push_spaced(reply, left);
    reply.push(b"\n");
}

/// Append the line of a fault-only-first load whose step leaves a length, if another one is chosen.
fn push_trim(reply: &mut Reply, number: u64, old: u64, left: u64)
    requires { length reply.old + 100 ≤ 4096 }
    ensures text { reply.new ≡ reply.old ++ trim_line number old left }
    ensures bound { length reply.new ≤ length reply.old + 100 }
{
    if left == old {
        return;
    }
    push_decimal(reply, number);
    reply.push(b" trim");
    push_spaced(reply, left);
    reply.push(b"\n");
}

/// Return VLMAX of a vector configuration, or 0 without a vector type.
fn most_of(conf: &VConf) -> u64
    ensures { result ≡ option_map_or vlmax conf.now.vtype 0 }
{
    match conf.vtype() {
        Some(vtype) => u64::from(vtype.vlmax()),
        None => 0,
    }
}

/// Append the line of the length that a seed chooses after a vset instruction that leaves this configuration, if it
/// chooses another one.
pub(crate) fn push_length_line(
    reply: &mut Reply,
    seed: &Seed,
    number: u64,
    rd: Reg,
    request: RequestedLength,
    conf: &VConf,
    scalar: &Scalar,
)
    requires { length reply.old + 100 ≤ 4096 }
    ensures text { reply.new ≡ reply.old ++ length_line number request (option_map_or vlmax conf.now.vtype 0) conf.now.vl
        (chosen_length seed.now number request (option_map_or vlmax conf.now.vtype 0) conf.now.vl) }
    ensures bound { length reply.new ≤ length reply.old + 100 }
{
    let RequestedLength::Elements(avl) = request else {
        return;
    };
    let mut left = *conf;
    let mut copy = *scalar;
    choose_length(seed, number, rd, request, &mut left, &mut copy);
    let most = most_of(conf);
    let old = u64::from(conf.vl());
    push_vset(reply, number, avl, most, old, u64::from(left.vl()));
}

/// Append the line of the length that a seed chooses after a fault-only-first load from this vstart that leaves this
/// configuration, if it chooses another one.
pub(crate) fn push_trim_line(reply: &mut Reply, seed: &Seed, number: u64, vstart: u8, conf: &VConf)
    requires { length reply.old + 100 ≤ 4096 }
    ensures text { reply.new ≡ reply.old
        ++ trim_line number conf.now.vl (chosen_trim seed.now number vstart conf.now.vl) }
    ensures bound { length reply.new ≤ length reply.old + 100 }
{
    let mut left = *conf;
    choose_trim(seed, number, vstart, &mut left);
    let old = u64::from(conf.vl());
    push_trim(reply, number, old, u64::from(left.vl()));
}
