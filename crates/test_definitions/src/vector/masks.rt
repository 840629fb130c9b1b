//! Operations on masks, comparisons and carries. tools/golden/golden_theorems writes this file from lab/tests/data/golden_vectors.
ghost use Rattle.test_definitions.specs.States.{Agrees};
ghost use Rattle.test_definitions.specs.vector.Masks.{vcpop_m, vfirst_m, vid_v, viota_m, vmadc_vx, vmadc_vxm};
ghost use Rattle.test_definitions.specs.vector.Masks.{vmand_mm, vmandn_mm, vmnand_mm, vmnor_mm, vmor_mm, vmorn_mm};
ghost use Rattle.test_definitions.specs.vector.Masks.{vmsbc_vv, vmsbc_vvm, vmsbf_m, vmseq_vv, vmsgt_vx, vmsgtu_vi};
ghost use Rattle.test_definitions.specs.vector.Masks.{vmsif_m, vmsle_vx, vmsleu_vi, vmslt_vv, vmsltu_vx, vmsne_vi};
ghost use Rattle.test_definitions.specs.vector.Masks.{vmsof_m, vmxnor_mm, vmxor_mm};

/// The definition of a step agrees with QEMU on each of these cases.
pub fn masks_agree()
    ensures vcpop_m { Agrees vcpop_m }
    ensures vfirst_m { Agrees vfirst_m }
    ensures vid_v { Agrees vid_v }
    ensures viota_m { Agrees viota_m }
    ensures vmadc_vx { Agrees vmadc_vx }
    ensures vmadc_vxm { Agrees vmadc_vxm }
    ensures vmand_mm { Agrees vmand_mm }
    ensures vmandn_mm { Agrees vmandn_mm }
    ensures vmnand_mm { Agrees vmnand_mm }
    ensures vmnor_mm { Agrees vmnor_mm }
    ensures vmor_mm { Agrees vmor_mm }
    ensures vmorn_mm { Agrees vmorn_mm }
    ensures vmsbc_vv { Agrees vmsbc_vv }
    ensures vmsbc_vvm { Agrees vmsbc_vvm }
    ensures vmsbf_m { Agrees vmsbf_m }
    ensures vmseq_vv { Agrees vmseq_vv }
    ensures vmsgt_vx { Agrees vmsgt_vx }
    ensures vmsgtu_vi { Agrees vmsgtu_vi }
    ensures vmsif_m { Agrees vmsif_m }
    ensures vmsle_vx { Agrees vmsle_vx }
    ensures vmsleu_vi { Agrees vmsleu_vi }
    ensures vmslt_vv { Agrees vmslt_vv }
    ensures vmsltu_vx { Agrees vmsltu_vx }
    ensures vmsne_vi { Agrees vmsne_vi }
    ensures vmsof_m { Agrees vmsof_m }
    ensures vmxnor_mm { Agrees vmxnor_mm }
    ensures vmxor_mm { Agrees vmxor_mm }
{}
