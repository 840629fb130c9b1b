//! Accesses to control registers. tools/golden/golden_theorems writes this file from lab/tests/data/golden_vectors.
ghost use Rattle.test_definitions.specs.States.{Agrees};
ghost use Rattle.test_definitions.specs.scalar.ControlRegisters.{csrrc, csrrci, csrrs, csrrsi, csrrw, csrrwi};

/// The definition of a step agrees with QEMU on each of these cases.
pub fn control_registers_agree()
    ensures csrrc { Agrees csrrc }
    ensures csrrci { Agrees csrrci }
    ensures csrrs { Agrees csrrs }
    ensures csrrsi { Agrees csrrsi }
    ensures csrrw { Agrees csrrw }
    ensures csrrwi { Agrees csrrwi }
{}
