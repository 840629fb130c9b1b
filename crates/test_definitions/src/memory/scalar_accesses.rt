//! Scalar loads and stores. tools/golden/golden_theorems writes this file from lab/tests/data/golden_vectors.
ghost use Rattle.test_definitions.specs.Memories.{LoadAgrees, StoreAgrees};
ghost use Rattle.test_definitions.specs.memory.ScalarAccesses.{lb, lbu, ld, lh, lhu, lw};
ghost use Rattle.test_definitions.specs.memory.ScalarAccesses.{lwu, sb, sd, sh, sw};

/// The definition of a step agrees with QEMU on each of these cases.
pub fn scalar_accesses_agree()
    ensures lb { LoadAgrees lb }
    ensures lbu { LoadAgrees lbu }
    ensures ld { LoadAgrees ld }
    ensures lh { LoadAgrees lh }
    ensures lhu { LoadAgrees lhu }
    ensures lw { LoadAgrees lw }
    ensures lwu { LoadAgrees lwu }
    ensures sb { StoreAgrees sb }
    ensures sd { StoreAgrees sd }
    ensures sh { StoreAgrees sh }
    ensures sw { StoreAgrees sw }
{}
