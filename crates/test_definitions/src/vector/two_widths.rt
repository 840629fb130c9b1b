//! Vector integer arithmetic with operands of two widths. tools/golden/golden_theorems writes this file from lab/tests/data/golden_vectors.
ghost use Rattle.test_definitions.specs.States.{Agrees};
ghost use Rattle.test_definitions.specs.vector.TwoWidths.{vsext_vf2, vsext_vf4, vsext_vf8, vzext_vf2, vzext_vf4, vzext_vf8};
ghost use Rattle.test_definitions.specs.vector.TwoWidths.{vnsra_wv, vnsrl_wx, vwadd_vx, vwadd_wv, vwaddu_vx, vwaddu_wx};
ghost use Rattle.test_definitions.specs.vector.TwoWidths.{vwmacc_vv, vwmaccsu_vx, vwmaccu_vx, vwmaccus_vx, vwmul_vx, vwmulsu_vx};
ghost use Rattle.test_definitions.specs.vector.TwoWidths.{vwmulu_vv, vwsub_vx, vwsub_wv, vwsubu_vv, vwsubu_wx};

/// The definition of a step agrees with QEMU on each of these cases.
pub fn two_widths_agree()
    ensures vsext_vf2 { Agrees vsext_vf2 }
    ensures vsext_vf4 { Agrees vsext_vf4 }
    ensures vsext_vf8 { Agrees vsext_vf8 }
    ensures vzext_vf2 { Agrees vzext_vf2 }
    ensures vzext_vf4 { Agrees vzext_vf4 }
    ensures vzext_vf8 { Agrees vzext_vf8 }
    ensures vnsra_wv { Agrees vnsra_wv }
    ensures vnsrl_wx { Agrees vnsrl_wx }
    ensures vwadd_vx { Agrees vwadd_vx }
    ensures vwadd_wv { Agrees vwadd_wv }
    ensures vwaddu_vx { Agrees vwaddu_vx }
    ensures vwaddu_wx { Agrees vwaddu_wx }
    ensures vwmacc_vv { Agrees vwmacc_vv }
    ensures vwmaccsu_vx { Agrees vwmaccsu_vx }
    ensures vwmaccu_vx { Agrees vwmaccu_vx }
    ensures vwmaccus_vx { Agrees vwmaccus_vx }
    ensures vwmul_vx { Agrees vwmul_vx }
    ensures vwmulsu_vx { Agrees vwmulsu_vx }
    ensures vwmulu_vv { Agrees vwmulu_vv }
    ensures vwsub_vx { Agrees vwsub_vx }
    ensures vwsub_wv { Agrees vwsub_wv }
    ensures vwsubu_vv { Agrees vwsubu_vv }
    ensures vwsubu_wx { Agrees vwsubu_wx }
{}
