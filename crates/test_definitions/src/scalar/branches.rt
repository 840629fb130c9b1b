//! Branches, jumps, `auipc`, `fence` and `ebreak`. tools/golden/golden_theorems writes this file from lab/tests/data/golden_vectors.
ghost use Rattle.test_definitions.specs.States.{Agrees};
ghost use Rattle.test_definitions.specs.scalar.Branches.{ebreak, auipc, beq, bge, bgeu, blt};
ghost use Rattle.test_definitions.specs.scalar.Branches.{bltu, bne, fence, jal, jalr, beq_misaligned};
ghost use Rattle.test_definitions.specs.scalar.Branches.{bge_misaligned, bgeu_misaligned, blt_misaligned, bltu_misaligned, bne_misaligned, jal_misaligned};
ghost use Rattle.test_definitions.specs.scalar.Branches.{jalr_misaligned};

/// The definition of a step agrees with QEMU on each of these cases.
pub fn branches_agree()
    ensures ebreak { Agrees ebreak }
    ensures auipc { Agrees auipc }
    ensures beq { Agrees beq }
    ensures bge { Agrees bge }
    ensures bgeu { Agrees bgeu }
    ensures blt { Agrees blt }
    ensures bltu { Agrees bltu }
    ensures bne { Agrees bne }
    ensures fence { Agrees fence }
    ensures jal { Agrees jal }
    ensures jalr { Agrees jalr }
    ensures beq_misaligned { Agrees beq_misaligned }
    ensures bge_misaligned { Agrees bge_misaligned }
    ensures bgeu_misaligned { Agrees bgeu_misaligned }
    ensures blt_misaligned { Agrees blt_misaligned }
    ensures bltu_misaligned { Agrees bltu_misaligned }
    ensures bne_misaligned { Agrees bne_misaligned }
    ensures jal_misaligned { Agrees jal_misaligned }
    ensures jalr_misaligned { Agrees jalr_misaligned }
{}
