//! Loads and stores that fault. tools/golden/golden_theorems writes this file from lab/tests/data/golden_vectors.
ghost use Rattle.test_definitions.specs.Memories.{LoadAgrees, StoreAgrees};
ghost use Rattle.test_definitions.specs.memory.Faults.{lb_fault, lbu_fault, ld_fault, lh_fault, lhu_fault, lw_fault};
ghost use Rattle.test_definitions.specs.memory.Faults.{lwu_fault, vle16_v_fault, vle8_v_fault, vle16ff_v_fault, vlm_v_fault, vlm_v_fault_2};
ghost use Rattle.test_definitions.specs.memory.Faults.{vloxei16_v_fault, vloxei8_v_fault, vl4re8_v_fault, vl2re8_v_fault, vlse8_v_fault, vlse8_v_fault_2};
ghost use Rattle.test_definitions.specs.memory.Faults.{vluxei32_v_fault, vluxei64_v_fault, sb_fault, sd_fault, sh_fault, sw_fault};
ghost use Rattle.test_definitions.specs.memory.Faults.{vse16_v_fault, vse16_v_fault_2, vsm_v_fault, vsm_v_fault_2, vsoxei16_v_fault, vsoxei32_v_fault};
ghost use Rattle.test_definitions.specs.memory.Faults.{vs1r_v_fault, vs8r_v_fault, vsse16_v_fault, vsse32_v_fault, vsuxei16_v_fault, vsuxei32_v_fault};

/// The definition of a step agrees with QEMU on each of these cases.
pub fn faults_agree()
    ensures lb_fault { LoadAgrees lb_fault }
    ensures lbu_fault { LoadAgrees lbu_fault }
    ensures ld_fault { LoadAgrees ld_fault }
    ensures lh_fault { LoadAgrees lh_fault }
    ensures lhu_fault { LoadAgrees lhu_fault }
    ensures lw_fault { LoadAgrees lw_fault }
    ensures lwu_fault { LoadAgrees lwu_fault }
    ensures vle16_v_fault { LoadAgrees vle16_v_fault }
    ensures vle8_v_fault { LoadAgrees vle8_v_fault }
    ensures vle16ff_v_fault { LoadAgrees vle16ff_v_fault }
    ensures vlm_v_fault { LoadAgrees vlm_v_fault }
    ensures vlm_v_fault_2 { LoadAgrees vlm_v_fault_2 }
    ensures vloxei16_v_fault { LoadAgrees vloxei16_v_fault }
    ensures vloxei8_v_fault { LoadAgrees vloxei8_v_fault }
    ensures vl4re8_v_fault { LoadAgrees vl4re8_v_fault }
    ensures vl2re8_v_fault { LoadAgrees vl2re8_v_fault }
    ensures vlse8_v_fault { LoadAgrees vlse8_v_fault }
    ensures vlse8_v_fault_2 { LoadAgrees vlse8_v_fault_2 }
    ensures vluxei32_v_fault { LoadAgrees vluxei32_v_fault }
    ensures vluxei64_v_fault { LoadAgrees vluxei64_v_fault }
    ensures sb_fault { StoreAgrees sb_fault }
    ensures sd_fault { StoreAgrees sd_fault }
    ensures sh_fault { StoreAgrees sh_fault }
    ensures sw_fault { StoreAgrees sw_fault }
    ensures vse16_v_fault { StoreAgrees vse16_v_fault }
    ensures vse16_v_fault_2 { StoreAgrees vse16_v_fault_2 }
    ensures vsm_v_fault { StoreAgrees vsm_v_fault }
    ensures vsm_v_fault_2 { StoreAgrees vsm_v_fault_2 }
    ensures vsoxei16_v_fault { StoreAgrees vsoxei16_v_fault }
    ensures vsoxei32_v_fault { StoreAgrees vsoxei32_v_fault }
    ensures vs1r_v_fault { StoreAgrees vs1r_v_fault }
    ensures vs8r_v_fault { StoreAgrees vs8r_v_fault }
    ensures vsse16_v_fault { StoreAgrees vsse16_v_fault }
    ensures vsse32_v_fault { StoreAgrees vsse32_v_fault }
    ensures vsuxei16_v_fault { StoreAgrees vsuxei16_v_fault }
    ensures vsuxei32_v_fault { StoreAgrees vsuxei32_v_fault }
{}
