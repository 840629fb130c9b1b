//! Instructions that set the vector length and type. tools/golden/golden_theorems writes this file from lab/tests/data/golden_vectors.
ghost use Rattle.test_definitions.specs.States.{Agrees};
ghost use Rattle.test_definitions.specs.vector.VectorTypes.{vsetivli, vsetivli_2, vsetvl, vsetvl_2, vsetvl_3, vsetvl_4};
ghost use Rattle.test_definitions.specs.vector.VectorTypes.{vsetvl_5, vsetvl_6, vsetvli, vsetvli_2, vsetvli_3, vsetvli_4};
ghost use Rattle.test_definitions.specs.vector.VectorTypes.{vsetvli_5, vsetvli_6};

/// The definition of a step agrees with QEMU on each of these cases.
pub fn vector_types_agree()
    ensures vsetivli { Agrees vsetivli }
    ensures vsetivli_2 { Agrees vsetivli_2 }
    ensures vsetvl { Agrees vsetvl }
    ensures vsetvl_2 { Agrees vsetvl_2 }
    ensures vsetvl_3 { Agrees vsetvl_3 }
    ensures vsetvl_4 { Agrees vsetvl_4 }
    ensures vsetvl_5 { Agrees vsetvl_5 }
    ensures vsetvl_6 { Agrees vsetvl_6 }
    ensures vsetvli { Agrees vsetvli }
    ensures vsetvli_2 { Agrees vsetvli_2 }
    ensures vsetvli_3 { Agrees vsetvli_3 }
    ensures vsetvli_4 { Agrees vsetvli_4 }
    ensures vsetvli_5 { Agrees vsetvli_5 }
    ensures vsetvli_6 { Agrees vsetvli_6 }
{}
