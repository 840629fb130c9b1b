//! Permutations and moves. tools/golden/golden_theorems writes this file from lab/tests/data/golden_vectors.
ghost use Rattle.test_definitions.specs.States.{Agrees};
ghost use Rattle.test_definitions.specs.vector.Permutations.{vmv_s_x, vmv_x_s, vmv1r_v, vmv2r_v, vmv4r_v, vmv8r_v};
ghost use Rattle.test_definitions.specs.vector.Permutations.{vcompress_vm, vrgather_vx, vrgatherei16_vv, vslide1down_vx, vslide1up_vx, vslidedown_vi};
ghost use Rattle.test_definitions.specs.vector.Permutations.{vslideup_vx};

/// The definition of a step agrees with QEMU on each of these cases.
pub fn permutations_agree()
    ensures vmv_s_x { Agrees vmv_s_x }
    ensures vmv_x_s { Agrees vmv_x_s }
    ensures vmv1r_v { Agrees vmv1r_v }
    ensures vmv2r_v { Agrees vmv2r_v }
    ensures vmv4r_v { Agrees vmv4r_v }
    ensures vmv8r_v { Agrees vmv8r_v }
    ensures vcompress_vm { Agrees vcompress_vm }
    ensures vrgather_vx { Agrees vrgather_vx }
    ensures vrgatherei16_vv { Agrees vrgatherei16_vv }
    ensures vslide1down_vx { Agrees vslide1down_vx }
    ensures vslide1up_vx { Agrees vslide1up_vx }
    ensures vslidedown_vi { Agrees vslidedown_vi }
    ensures vslideup_vx { Agrees vslideup_vx }
{}
