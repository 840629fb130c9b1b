//! Fixed-point arithmetic. tools/golden/golden_theorems writes this file from lab/tests/data/golden_vectors.
ghost use Rattle.test_definitions.specs.States.{Agrees};
ghost use Rattle.test_definitions.specs.vector.FixedPoint.{vaadd_vv, vaaddu_vx, vasub_vv, vasubu_vv, vnclip_wx, vnclip_wi};
ghost use Rattle.test_definitions.specs.vector.FixedPoint.{vnclipu_wv, vnclipu_wv_2, vsadd_vi, vsadd_vv, vsaddu_vx, vsaddu_vi};
ghost use Rattle.test_definitions.specs.vector.FixedPoint.{vsmul_vv, vssra_vx, vssrl_vi, vssub_vx, vssub_vx_2, vssubu_vx};
ghost use Rattle.test_definitions.specs.vector.FixedPoint.{vssubu_vv};

/// The definition of a step agrees with QEMU on each of these cases.
pub fn fixed_point_agree()
    ensures vaadd_vv { Agrees vaadd_vv }
    ensures vaaddu_vx { Agrees vaaddu_vx }
    ensures vasub_vv { Agrees vasub_vv }
    ensures vasubu_vv { Agrees vasubu_vv }
    ensures vnclip_wx { Agrees vnclip_wx }
    ensures vnclip_wi { Agrees vnclip_wi }
    ensures vnclipu_wv { Agrees vnclipu_wv }
    ensures vnclipu_wv_2 { Agrees vnclipu_wv_2 }
    ensures vsadd_vi { Agrees vsadd_vi }
    ensures vsadd_vv { Agrees vsadd_vv }
    ensures vsaddu_vx { Agrees vsaddu_vx }
    ensures vsaddu_vi { Agrees vsaddu_vi }
    ensures vsmul_vv { Agrees vsmul_vv }
    ensures vssra_vx { Agrees vssra_vx }
    ensures vssrl_vi { Agrees vssrl_vi }
    ensures vssub_vx { Agrees vssub_vx }
    ensures vssub_vx_2 { Agrees vssub_vx_2 }
    ensures vssubu_vx { Agrees vssubu_vx }
    ensures vssubu_vv { Agrees vssubu_vv }
{}
