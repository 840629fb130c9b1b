//! Vector stores. tools/golden/golden_theorems writes this file from lab/tests/data/golden_vectors.
ghost use Rattle.test_definitions.specs.Memories.{StoreAgrees};
ghost use Rattle.test_definitions.specs.memory.Stores.{vs1r_v, vs2r_v, vs4r_v, vs8r_v, vse16_v, vse32_v};
ghost use Rattle.test_definitions.specs.memory.Stores.{vse64_v, vse8_v, vsm_v, vsoxei16_v, vsoxei32_v, vsoxei64_v};
ghost use Rattle.test_definitions.specs.memory.Stores.{vsoxei8_v, vsoxseg7ei64_v, vsse16_v, vsseg3e32_v, vssseg3e8_v, vsuxei16_v};
ghost use Rattle.test_definitions.specs.memory.Stores.{vsuxei32_v, vsuxei64_v, vsuxei8_v, vsuxseg2ei16_v};

/// The definition of a step agrees with QEMU on each of these cases.
pub fn stores_agree()
    ensures vs1r_v { StoreAgrees vs1r_v }
    ensures vs2r_v { StoreAgrees vs2r_v }
    ensures vs4r_v { StoreAgrees vs4r_v }
    ensures vs8r_v { StoreAgrees vs8r_v }
    ensures vse16_v { StoreAgrees vse16_v }
    ensures vse32_v { StoreAgrees vse32_v }
    ensures vse64_v { StoreAgrees vse64_v }
    ensures vse8_v { StoreAgrees vse8_v }
    ensures vsm_v { StoreAgrees vsm_v }
    ensures vsoxei16_v { StoreAgrees vsoxei16_v }
    ensures vsoxei32_v { StoreAgrees vsoxei32_v }
    ensures vsoxei64_v { StoreAgrees vsoxei64_v }
    ensures vsoxei8_v { StoreAgrees vsoxei8_v }
    ensures vsoxseg7ei64_v { StoreAgrees vsoxseg7ei64_v }
    ensures vsse16_v { StoreAgrees vsse16_v }
    ensures vsseg3e32_v { StoreAgrees vsseg3e32_v }
    ensures vssseg3e8_v { StoreAgrees vssseg3e8_v }
    ensures vsuxei16_v { StoreAgrees vsuxei16_v }
    ensures vsuxei32_v { StoreAgrees vsuxei32_v }
    ensures vsuxei64_v { StoreAgrees vsuxei64_v }
    ensures vsuxei8_v { StoreAgrees vsuxei8_v }
    ensures vsuxseg2ei16_v { StoreAgrees vsuxseg2ei16_v }
{}
