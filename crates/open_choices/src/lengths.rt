//! Lengths that the standard leaves open: of a vset instruction whose AVL is between VLMAX and twice it, and of a
//! fault-only-first load ("V" Vector Extension 1.0, sections 6.3 and 7.7).
ghost use Rattle.std.specs.Prelude.{◌≡◌, ◌*◌, ◌<◌, ◌≤◌, ◌==◌, Some, if◌then◌else◌};
ghost use Rattle.std.specs.Option.{option_map_or};
ghost use Rattle.rv_model.specs.declared.instructions.instruction.Instr.TheVariants as decoded;
ghost use Rattle.rv_model.specs.declared.vector.request.RequestedLength.TheVariants.{Elements};
ghost use Rattle.rv_model.specs.scalar.Registers.{with_register};
ghost use Rattle.rv_model.specs.step.Hart.{HartState};
ghost use Rattle.rv_model.specs.step.Step.{requested_length};
ghost use Rattle.rv_model.specs.vector.Groups.{vlmax};
ghost use Rattle.open_choices.specs.OpenStep.{asked_by};
ghost use Rattle.open_choices.specs.Seeds.{chosen_length, chosen_trim, drawn_length, drawn_trim};

use crate::seeds::{Seed, drawn_bits};
use rv_model::{Reg, RequestedLength, Scalar, VConf, VectorInstr};

/// Return the request of a vset instruction whose AVL is in a register.
fn requested_length(rd: Reg, rs1: Reg, scalar: &Scalar) -> RequestedLength
    ensures { result ≡ requested_length rd rs1 scalar.now }
{
    if rs1.number() != 0 {
        RequestedLength::Elements(scalar.read(rs1))
    } else if rd.number() != 0 {
        RequestedLength::Maximum
    } else {
        RequestedLength::Keep
    }
}

/// Return the scalar destination and the requested length of a vset instruction, or `None` for any other instruction.
pub fn asked_length(instr: &VectorInstr, scalar: &Scalar) -> Option<(Reg, RequestedLength)>
    ensures { (s : HartState) → s.scalar ≡ scalar.now → result ≡ asked_by (Some (decoded.Vector instr.now)) s }
{
    match instr {
        VectorInstr::SetVli { rd, rs1, .. } | VectorInstr::SetVl { rd, rs1, .. } => {
            Some((*rd, requested_length(*rd, *rs1, scalar)))
        }
        VectorInstr::SetIvli { rd, avl, .. } => {
            Some((*rd, RequestedLength::Elements(u64::from(avl.value()))))
        }
        _ => None,
    }
}

/// Return the length that a seed draws for an AVL between VLMAX and twice it.
fn drawn_length(seed: u64, avl: u64, most: u64) -> u64
    requires above { most < avl }
    requires below { avl < 2 * most }
    requires most { most ≤ 256 }
    ensures value { result ≡ drawn_length seed avl most }
    ensures most { result ≤ most }
{
    let least = (avl + 1) / 2;
    if seed == 1 {
        return least;
    }
    let drawn = drawn_bits(seed, avl, 512 + most) % (most - least + 1);
    if seed % 2 == 0 {
        least + drawn
    } else {
        most - drawn
    }
}

/// Return the length that a seed draws after a fault-only-first load that leaves `vl`.
fn drawn_trim(seed: u64, number: u64, vl: u64) -> u64
    requires some { 1 < vl }
    requires most { vl ≤ 256 }
    ensures value { result ≡ drawn_trim seed number vl }
    ensures most { result ≤ vl }
{
    if seed == 1 {
        return 1;
    }
    let word = drawn_bits(seed, number, 256);
    if word % 2 == seed % 2 {
        return vl;
    }
    match word / 2 % 4 {
        0 => 1,
        1 => vl - 1,
        _ => 1 + word / 8 % (vl - 1),
    }
}

/// Return the length that is left after a vset instruction with this AVL, VLMAX and vl.
fn length_for(seed: &Seed, number: u64, avl: u64, most: u64, vl: u64) -> u64
    requires most { most ≤ 256 }
    requires length { vl ≤ most }
    ensures value { result ≡ chosen_length seed.now number (Elements avl) most vl }
    ensures most { result ≤ most }
{
    if seed.kinds.length && seed.chooses(number) && most < avl && avl < 2 * most {
        drawn_length(seed.seed, avl, most)
    } else {
        vl
    }
}

/// Return the length that is left after a vset instruction with this request, VLMAX and vl.
fn chosen_length(seed: &Seed, number: u64, length: RequestedLength, most: u64, vl: u64) -> u64
    requires most { most ≤ 256 }
    requires length { vl ≤ most }
    ensures value { result ≡ chosen_length seed.now number length most vl }
    ensures most { result ≤ most }
{
    match length {
        RequestedLength::Elements(avl) => length_for(seed, number, avl, most, vl),
        RequestedLength::Maximum | RequestedLength::Keep => vl,
    }
}

/// Choose the length after the vset instruction with a number that ran, and write it to its destination.
pub fn choose_length(
    seed: &Seed,
    number: u64,
    rd: Reg,
    length: RequestedLength,
    conf: &mut VConf,
    scalar: &mut Scalar,
)
    ensures conf { conf.new ≡ record conf.old { vl = chosen_length seed.now number length (option_map_or vlmax conf.old.vtype 0) conf.old.vl } }
    ensures scalar { scalar.new ≡ (if conf.new.vl == conf.old.vl then scalar.old else with_register rd conf.new.vl scalar.old) }
{
    let Some(vtype) = conf.vtype() else {
        return;
    };
    let most = u64::from(vtype.vlmax());
    let vl = u64::from(conf.vl());
    let left = chosen_length(seed, number, length, most, vl);
    if left != vl {
        *conf = VConf::new(left as u16, vtype);
        scalar.write(rd, left);
    }
}

/// Choose the length after the fault-only-first load with a number that ran from this vstart.
pub fn choose_trim(seed: &Seed, number: u64, vstart: u8, conf: &mut VConf)
    ensures { conf.new ≡ record conf.old { vl = chosen_trim seed.now number vstart conf.old.vl } }
{
    let vl = u64::from(conf.vl());
    if seed.kinds.trim && seed.chooses(number) && vstart == 0 && vl > 1 {
        *conf = conf.shortened(drawn_trim(seed.seed, number, vl) as u16);
    }
}
