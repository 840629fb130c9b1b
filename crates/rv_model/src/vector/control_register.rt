//! The control registers that a program may access, all of the vector extension.
/// A control register of the vector extension ("V" Vector Extension 1.0, sections 3.4 to 3.10).
#[derive(Clone, Copy, Debug, PartialEq, Eq)]
pub enum ControlRegister {
    /// The index of the first element that the next vector instruction executes.
    Vstart,
    /// The fixed-point saturation flag.
    Vxsat,
    /// The fixed-point rounding mode.
    Vxrm,
    /// The rounding mode and the saturation flag together.
    Vcsr,
    /// The vector length in elements.
    Vl,
    /// The vector type.
    Vtype,
    /// The length of a vector register in bytes.
    Vlenb,
}

/// All control registers.
static CONTROL_REGISTERS: [ControlRegister; 7] = [
    ControlRegister::Vstart,
    ControlRegister::Vxsat,
    ControlRegister::Vxrm,
    ControlRegister::Vcsr,
    ControlRegister::Vl,
    ControlRegister::Vtype,
    ControlRegister::Vlenb,
];

impl ControlRegister {
    ghost use Rattle.std.specs.Prelude.{◌≡◌, ◌≤◌, ◌<◌, ◌^◌, length};
    ghost use Rattle.rv_model.specs.vector.ControlRegisters.{control_register, control_registers, is_read_only};
    ghost use Rattle.rv_model.specs.vector.ControlRegisters.{register_name, register_number};
    ghost use Rattle.rv_model.specs.vector.TypeNames.{with_name};

    /// Return the register's 12-bit number.
    pub fn number(self) -> u32
        ensures value { result ≡ register_number self }
        ensures small { result < 2 ^ 12 }
    {
        match self {
            ControlRegister::Vstart => 0x008,
            ControlRegister::Vxsat => 0x009,
            ControlRegister::Vxrm => 0x00a,
            ControlRegister::Vcsr => 0x00f,
            ControlRegister::Vl => 0xc20,
            ControlRegister::Vtype => 0xc21,
            ControlRegister::Vlenb => 0xc22,
        }
    }

    /// Return the register's name in assembler text, at most 16 bytes.
    pub fn name(self) -> &'static str
        ensures value { result.now ≡ register_name self }
        ensures short { length result.now ≤ 16 }
    {
        match self {
            ControlRegister::Vstart => "vstart",
            ControlRegister::Vxsat => "vxsat",
            ControlRegister::Vxrm => "vxrm",
            ControlRegister::Vcsr => "vcsr",
            ControlRegister::Vl => "vl",
            ControlRegister::Vtype => "vtype",
            ControlRegister::Vlenb => "vlenb",
        }
    }

    /// Return whether the register is read-only for instructions.
    pub fn is_read_only(self) -> bool
        ensures { result ≡ is_read_only self }
    {
        match self {
            ControlRegister::Vstart
            | ControlRegister::Vxsat
            | ControlRegister::Vxrm
            | ControlRegister::Vcsr => false,
            ControlRegister::Vl | ControlRegister::Vtype | ControlRegister::Vlenb => true,
        }
    }

    /// Return the register with this number, or `None` if no register has it.
    pub fn with_number(number: u32) -> Option<ControlRegister>
        ensures { result ≡ control_register number }
    {
        CONTROL_REGISTERS
            .iter()
            .copied()
            .find(|register| register.number() == number)
    }

    /// Return the register with this name, or `None` if no register has it.
    pub fn with_name(name: &[u8]) -> Option<ControlRegister>
        ensures { result ≡ with_name register_name control_registers name.now }
    {
        CONTROL_REGISTERS
            .iter()
            .copied()
            .find(|register| register.name().as_bytes() == name)
    }
}
