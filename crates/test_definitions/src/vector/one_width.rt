//! Vector integer arithmetic with operands of one width. tools/golden/golden_theorems writes this file from lab/tests/data/golden_vectors.
ghost use Rattle.test_definitions.specs.States.{Agrees};
ghost use Rattle.test_definitions.specs.vector.OneWidth.{vadc_vxm, vadd_vx, vand_vv, vdiv_vv, vdivu_vx, vmacc_vx};
ghost use Rattle.test_definitions.specs.vector.OneWidth.{vmadd_vv, vmax_vx, vmaxu_vv, vmerge_vim, vmin_vv, vminu_vx};
ghost use Rattle.test_definitions.specs.vector.OneWidth.{vmul_vv, vmulh_vx, vmulhsu_vx, vmulhu_vv, vmv_v_v, vnmsac_vv};
ghost use Rattle.test_definitions.specs.vector.OneWidth.{vnmsub_vv, vor_vx, vrem_vv, vremu_vv, vrsub_vx, vsbc_vvm};
ghost use Rattle.test_definitions.specs.vector.OneWidth.{vsll_vv, vsra_vx, vsrl_vi, vsub_vv, vxor_vx};

/// The definition of a step agrees with QEMU on each of these cases.
pub fn one_width_agree()
    ensures vadc_vxm { Agrees vadc_vxm }
    ensures vadd_vx { Agrees vadd_vx }
    ensures vand_vv { Agrees vand_vv }
    ensures vdiv_vv { Agrees vdiv_vv }
    ensures vdivu_vx { Agrees vdivu_vx }
    ensures vmacc_vx { Agrees vmacc_vx }
    ensures vmadd_vv { Agrees vmadd_vv }
    ensures vmax_vx { Agrees vmax_vx }
    ensures vmaxu_vv { Agrees vmaxu_vv }
    ensures vmerge_vim { Agrees vmerge_vim }
    ensures vmin_vv { Agrees vmin_vv }
    ensures vminu_vx { Agrees vminu_vx }
    ensures vmul_vv { Agrees vmul_vv }
    ensures vmulh_vx { Agrees vmulh_vx }
    ensures vmulhsu_vx { Agrees vmulhsu_vx }
    ensures vmulhu_vv { Agrees vmulhu_vv }
    ensures vmv_v_v { Agrees vmv_v_v }
    ensures vnmsac_vv { Agrees vnmsac_vv }
    ensures vnmsub_vv { Agrees vnmsub_vv }
    ensures vor_vx { Agrees vor_vx }
    ensures vrem_vv { Agrees vrem_vv }
    ensures vremu_vv { Agrees vremu_vv }
    ensures vrsub_vx { Agrees vrsub_vx }
    ensures vsbc_vvm { Agrees vsbc_vvm }
    ensures vsll_vv { Agrees vsll_vv }
    ensures vsra_vx { Agrees vsra_vx }
    ensures vsrl_vi { Agrees vsrl_vi }
    ensures vsub_vv { Agrees vsub_vv }
    ensures vxor_vx { Agrees vxor_vx }
{}
