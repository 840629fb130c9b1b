//! Illegal instructions, for each rule of legality and major opcode. tools/golden/golden_theorems writes this file from lab/tests/data/golden_vectors.
ghost use Rattle.test_definitions.specs.States.{Agrees};
ghost use Rattle.test_definitions.specs.Legality.{vrgatherei16_vv_illegal, vluxseg2ei64_v_illegal, vssseg8e16_v_illegal, vlseg3e32_v_illegal, vwsub_vv_illegal, vsoxseg2ei8_v_illegal};
ghost use Rattle.test_definitions.specs.Legality.{vmslt_vv_illegal, vloxei8_v_illegal, vsse64_v_illegal, vsext_vf2_illegal, vlseg2e64_v_illegal, vssseg6e8_v_illegal};
ghost use Rattle.test_definitions.specs.Legality.{vloxseg4ei8_v_illegal, vmulhu_vx_illegal, vlseg7e8_v_illegal, vssseg7e64_v_illegal, vwsub_wx_illegal, vlseg3e32ff_v_illegal};
ghost use Rattle.test_definitions.specs.Legality.{vzext_vf8_illegal, vmsbc_vv_illegal, vloxei16_v_illegal, csrrc_illegal, csrrsi_illegal, vsse64_v_illegal_2};
ghost use Rattle.test_definitions.specs.Legality.{vwadd_vv_illegal, vlse32_v_illegal, vmulhu_vx_illegal_2, vsseg5e16_v_illegal, vnmsub_vv_illegal, vlseg6e16_v_illegal};
ghost use Rattle.test_definitions.specs.Legality.{vmsbf_m_illegal, vl2re32_v_illegal, vnclip_wi_illegal, vwmacc_vx_illegal};

/// The definition of a step agrees with QEMU on each of these cases.
pub fn legality_agree()
    ensures vrgatherei16_vv_illegal { Agrees vrgatherei16_vv_illegal }
    ensures vluxseg2ei64_v_illegal { Agrees vluxseg2ei64_v_illegal }
    ensures vssseg8e16_v_illegal { Agrees vssseg8e16_v_illegal }
    ensures vlseg3e32_v_illegal { Agrees vlseg3e32_v_illegal }
    ensures vwsub_vv_illegal { Agrees vwsub_vv_illegal }
    ensures vsoxseg2ei8_v_illegal { Agrees vsoxseg2ei8_v_illegal }
    ensures vmslt_vv_illegal { Agrees vmslt_vv_illegal }
    ensures vloxei8_v_illegal { Agrees vloxei8_v_illegal }
    ensures vsse64_v_illegal { Agrees vsse64_v_illegal }
    ensures vsext_vf2_illegal { Agrees vsext_vf2_illegal }
    ensures vlseg2e64_v_illegal { Agrees vlseg2e64_v_illegal }
    ensures vssseg6e8_v_illegal { Agrees vssseg6e8_v_illegal }
    ensures vloxseg4ei8_v_illegal { Agrees vloxseg4ei8_v_illegal }
    ensures vmulhu_vx_illegal { Agrees vmulhu_vx_illegal }
    ensures vlseg7e8_v_illegal { Agrees vlseg7e8_v_illegal }
    ensures vssseg7e64_v_illegal { Agrees vssseg7e64_v_illegal }
    ensures vwsub_wx_illegal { Agrees vwsub_wx_illegal }
    ensures vlseg3e32ff_v_illegal { Agrees vlseg3e32ff_v_illegal }
    ensures vzext_vf8_illegal { Agrees vzext_vf8_illegal }
    ensures vmsbc_vv_illegal { Agrees vmsbc_vv_illegal }
    ensures vloxei16_v_illegal { Agrees vloxei16_v_illegal }
    ensures csrrc_illegal { Agrees csrrc_illegal }
    ensures csrrsi_illegal { Agrees csrrsi_illegal }
    ensures vsse64_v_illegal_2 { Agrees vsse64_v_illegal_2 }
    ensures vwadd_vv_illegal { Agrees vwadd_vv_illegal }
    ensures vlse32_v_illegal { Agrees vlse32_v_illegal }
    ensures vmulhu_vx_illegal_2 { Agrees vmulhu_vx_illegal_2 }
    ensures vsseg5e16_v_illegal { Agrees vsseg5e16_v_illegal }
    ensures vnmsub_vv_illegal { Agrees vnmsub_vv_illegal }
    ensures vlseg6e16_v_illegal { Agrees vlseg6e16_v_illegal }
    ensures vmsbf_m_illegal { Agrees vmsbf_m_illegal }
    ensures vl2re32_v_illegal { Agrees vl2re32_v_illegal }
    ensures vnclip_wi_illegal { Agrees vnclip_wi_illegal }
    ensures vwmacc_vx_illegal { Agrees vwmacc_vx_illegal }
{}
