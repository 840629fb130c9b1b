//! Scalar arithmetic. tools/golden/golden_theorems writes this file from lab/tests/data/golden_vectors.
ghost use Rattle.test_definitions.specs.States.{Agrees};
ghost use Rattle.test_definitions.specs.scalar.Scalars.{add, addi, addiw, addw, and, andi};
ghost use Rattle.test_definitions.specs.scalar.Scalars.{div, divu, divuw, divw, lui, mul};
ghost use Rattle.test_definitions.specs.scalar.Scalars.{mulh, mulhsu, mulhu, mulw, or, ori};
ghost use Rattle.test_definitions.specs.scalar.Scalars.{rem, remu, remuw, remw, sll, slli};
ghost use Rattle.test_definitions.specs.scalar.Scalars.{slliw, sllw, slt, slti, sltiu, sltu};
ghost use Rattle.test_definitions.specs.scalar.Scalars.{sra, srai, sraiw, sraw, srl, srli};
ghost use Rattle.test_definitions.specs.scalar.Scalars.{srliw, srlw, sub, subw, xor, xori};

/// The definition of a step agrees with QEMU on each of these cases.
pub fn scalars_agree()
    ensures add { Agrees add }
    ensures addi { Agrees addi }
    ensures addiw { Agrees addiw }
    ensures addw { Agrees addw }
    ensures and { Agrees and }
    ensures andi { Agrees andi }
    ensures div { Agrees div }
    ensures divu { Agrees divu }
    ensures divuw { Agrees divuw }
    ensures divw { Agrees divw }
    ensures lui { Agrees lui }
    ensures mul { Agrees mul }
    ensures mulh { Agrees mulh }
    ensures mulhsu { Agrees mulhsu }
    ensures mulhu { Agrees mulhu }
    ensures mulw { Agrees mulw }
    ensures or { Agrees or }
    ensures ori { Agrees ori }
    ensures rem { Agrees rem }
    ensures remu { Agrees remu }
    ensures remuw { Agrees remuw }
    ensures remw { Agrees remw }
    ensures sll { Agrees sll }
    ensures slli { Agrees slli }
    ensures slliw { Agrees slliw }
    ensures sllw { Agrees sllw }
    ensures slt { Agrees slt }
    ensures slti { Agrees slti }
    ensures sltiu { Agrees sltiu }
    ensures sltu { Agrees sltu }
    ensures sra { Agrees sra }
    ensures srai { Agrees srai }
    ensures sraiw { Agrees sraiw }
    ensures sraw { Agrees sraw }
    ensures srl { Agrees srl }
    ensures srli { Agrees srli }
    ensures srliw { Agrees srliw }
    ensures srlw { Agrees srlw }
    ensures sub { Agrees sub }
    ensures subw { Agrees subw }
    ensures xor { Agrees xor }
    ensures xori { Agrees xori }
{}
