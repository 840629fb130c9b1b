//! Instructions grouped by their operands, and descriptions of these operands.

/// The elements of an operand.
#[derive(Clone, Copy, PartialEq, Eq, Drop)]
pub(crate) enum Elements {
    /// Elements of SEW times two to this power, in bits.
    Sew(i32),
    /// Elements of two to this power bits, for any SEW; their number is that of the elements of SEW.
    Bits(i32),
    /// The bits of a mask, in one register.
    Mask,
    /// One element of SEW times two to this power, in bits, in one register.
    One(i32),
    /// Elements of SEW, in this number of whole registers.
    Whole(u32),
}

/// An operand: its first register, its elements, and the number of consecutive register groups, one for each field.
#[derive(Clone, Copy, Drop)]
pub(crate) struct Part {
    pub first: u32,
    pub elements: Elements,
    pub fields: u32,
}

/// The registers that the destination may share with a source.
#[derive(Clone, Copy, PartialEq, Eq, Drop)]
pub(crate) enum Sharing {
    /// Those that the widths of the elements allow, except v0 if the instruction is masked.
    ByWidth,
    /// The same, and v0 too.
    ByWidthOrMask,
    /// None.
    Apart,
    /// Any.
    Any,
}

/// The memory access of a load or store at an index.
#[derive(Clone, Copy, PartialEq, Eq, Drop)]
pub(crate) enum Access {
    /// Contiguous: this number of bytes after the previous index.
    Unit(u64),
    /// The same; a fault at an index above 0 ends the load there.
    FaultOnlyFirst(u64),
    /// Strided: x11 bytes after the previous index.
    Strided,
    /// Indexed: at an offset of this number of bits, which are all ones.
    Indexed(u32),
    /// Whole registers: the number of indices, and the bytes of each.
    Whole(u64, u64),
    /// The bytes of a mask.
    Mask,
}

/// Instructions with the same operands.
#[derive(Clone, Copy, Drop)]
pub(crate) struct Shape {
    pub texts: &'static [&'static str],
    pub destination: Option<Part>,
    pub sharing: Sharing,
    pub sources: [Option<Part>; 2],
    /// Whether vstart must be 0.
    pub begins_at_zero: bool,
    /// Whether SEW must be below 64.
    pub is_below_64: bool,
    /// Whether a valid vector type is required.
    pub is_typed: bool,
    pub access: Option<Access>,
}

impl Shape {
    /// Instructions without vector registers.
    pub(crate) fn new(texts: &'static [&'static str]) -> Shape {
        Shape {
            texts,
            destination: None,
            sharing: Sharing::ByWidth,
            sources: [None, None],
            begins_at_zero: false,
            is_below_64: false,
            is_typed: true,
            access: None,
        }
    }

    /// The same with a destination of several fields.
    pub(crate) fn to_fields(self, first: u32, elements: Elements, fields: u32) -> Shape {
        let destination = Some(Part {
            first,
            elements,
            fields,
        });
        Shape {
            destination,
            ..self
        }
    }

    /// The same with a destination.
    pub(crate) fn to(self, first: u32, elements: Elements) -> Shape {
        self.to_fields(first, elements, 1)
    }

    /// The same with a source of several fields before the others.
    pub(crate) fn from_fields(self, first: u32, elements: Elements, fields: u32) -> Shape {
        let [other, _] = self.sources;
        let source = Some(Part {
            first,
            elements,
            fields,
        });
        Shape {
            sources: [source, other],
            ..self
        }
    }

    /// The same with another source before the others, at most two in all.
    pub(crate) fn from(self, first: u32, elements: Elements) -> Shape {
        self.from_fields(first, elements, 1)
    }

    /// The same with another rule for the registers that the destination may share.
    pub(crate) fn sharing(self, sharing: Sharing) -> Shape {
        Shape { sharing, ..self }
    }

    /// The same for instructions that require vstart 0.
    pub(crate) fn at_zero(self) -> Shape {
        Shape {
            begins_at_zero: true,
            ..self
        }
    }

    /// The same for instructions that exist only for SEW below 64.
    pub(crate) fn below_64(self) -> Shape {
        Shape {
            is_below_64: true,
            ..self
        }
    }

    /// The same for instructions that don't require a vector type.
    pub(crate) fn untyped(self) -> Shape {
        Shape {
            is_typed: false,
            ..self
        }
    }

    /// The same for loads and stores.
    pub(crate) fn access(self, access: Access) -> Shape {
        Shape {
            access: Some(access),
            ..self
        }
    }
}
