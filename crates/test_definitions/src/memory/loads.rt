//! Vector loads. tools/golden/golden_theorems writes this file from lab/tests/data/golden_vectors.
ghost use Rattle.test_definitions.specs.Memories.{LoadAgrees};
ghost use Rattle.test_definitions.specs.memory.Loads.{vl1re8_v, vl2re8_v, vl4re64_v, vl8re64_v, vle16_v, vle16ff_v};
ghost use Rattle.test_definitions.specs.memory.Loads.{vle32_v, vle32ff_v, vle32ff_v_2, vle64_v, vle64ff_v, vle64ff_v_2};
ghost use Rattle.test_definitions.specs.memory.Loads.{vle8_v, vle8ff_v, vle8ff_v_2, vlm_v, vloxei16_v, vloxei32_v};
ghost use Rattle.test_definitions.specs.memory.Loads.{vloxei64_v, vloxei8_v, vloxseg2ei64_v, vlse16_v, vlseg2e32_v, vlseg3e32ff_v};
ghost use Rattle.test_definitions.specs.memory.Loads.{vlseg5e32ff_v, vlsseg3e16_v, vluxei16_v, vluxei32_v, vluxei64_v, vluxei8_v};
ghost use Rattle.test_definitions.specs.memory.Loads.{vluxseg2ei64_v};

/// The definition of a step agrees with QEMU on each of these cases.
pub fn loads_agree()
    ensures vl1re8_v { LoadAgrees vl1re8_v }
    ensures vl2re8_v { LoadAgrees vl2re8_v }
    ensures vl4re64_v { LoadAgrees vl4re64_v }
    ensures vl8re64_v { LoadAgrees vl8re64_v }
    ensures vle16_v { LoadAgrees vle16_v }
    ensures vle16ff_v { LoadAgrees vle16ff_v }
    ensures vle32_v { LoadAgrees vle32_v }
    ensures vle32ff_v { LoadAgrees vle32ff_v }
    ensures vle32ff_v_2 { LoadAgrees vle32ff_v_2 }
    ensures vle64_v { LoadAgrees vle64_v }
    ensures vle64ff_v { LoadAgrees vle64ff_v }
    ensures vle64ff_v_2 { LoadAgrees vle64ff_v_2 }
    ensures vle8_v { LoadAgrees vle8_v }
    ensures vle8ff_v { LoadAgrees vle8ff_v }
    ensures vle8ff_v_2 { LoadAgrees vle8ff_v_2 }
    ensures vlm_v { LoadAgrees vlm_v }
    ensures vloxei16_v { LoadAgrees vloxei16_v }
    ensures vloxei32_v { LoadAgrees vloxei32_v }
    ensures vloxei64_v { LoadAgrees vloxei64_v }
    ensures vloxei8_v { LoadAgrees vloxei8_v }
    ensures vloxseg2ei64_v { LoadAgrees vloxseg2ei64_v }
    ensures vlse16_v { LoadAgrees vlse16_v }
    ensures vlseg2e32_v { LoadAgrees vlseg2e32_v }
    ensures vlseg3e32ff_v { LoadAgrees vlseg3e32ff_v }
    ensures vlseg5e32ff_v { LoadAgrees vlseg5e32ff_v }
    ensures vlsseg3e16_v { LoadAgrees vlsseg3e16_v }
    ensures vluxei16_v { LoadAgrees vluxei16_v }
    ensures vluxei32_v { LoadAgrees vluxei32_v }
    ensures vluxei64_v { LoadAgrees vluxei64_v }
    ensures vluxei8_v { LoadAgrees vluxei8_v }
    ensures vluxseg2ei64_v { LoadAgrees vluxseg2ei64_v }
{}
