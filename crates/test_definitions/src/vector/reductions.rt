//! Reductions. tools/golden/golden_theorems writes this file from lab/tests/data/golden_vectors.
ghost use Rattle.test_definitions.specs.States.{Agrees};
ghost use Rattle.test_definitions.specs.vector.Reductions.{vredand_vs, vredmax_vs, vredmaxu_vs, vredmin_vs, vredminu_vs, vredor_vs};
ghost use Rattle.test_definitions.specs.vector.Reductions.{vredsum_vs, vredxor_vs, vwredsum_vs, vwredsumu_vs};

/// The definition of a step agrees with QEMU on each of these cases.
pub fn reductions_agree()
    ensures vredand_vs { Agrees vredand_vs }
    ensures vredmax_vs { Agrees vredmax_vs }
    ensures vredmaxu_vs { Agrees vredmaxu_vs }
    ensures vredmin_vs { Agrees vredmin_vs }
    ensures vredminu_vs { Agrees vredminu_vs }
    ensures vredor_vs { Agrees vredor_vs }
    ensures vredsum_vs { Agrees vredsum_vs }
    ensures vredxor_vs { Agrees vredxor_vs }
    ensures vwredsum_vs { Agrees vwredsum_vs }
    ensures vwredsumu_vs { Agrees vwredsumu_vs }
{}
