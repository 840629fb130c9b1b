//! Vector loads and stores.
use crate::shapes::Elements::{Bits, Mask, Sew, Whole};
use crate::shapes::{Access, Shape, Sharing};

/// Loads and stores of contiguous elements.
pub(crate) fn contiguous() -> [Shape; 7] {
    [
        Shape::new(&["vle8.v v8, (x10)", "vle8.v v8, (x10), v0.t"])
            .to(8, Bits(3))
            .access(Access::Unit(1)),
        Shape::new(&["vle64.v v8, (x10)", "vle64.v v8, (x10), v0.t"])
            .to(8, Bits(6))
            .access(Access::Unit(8)),
        Shape::new(&["vle16.v v0, (x10), v0.t"])
            .to(0, Bits(4))
            .access(Access::Unit(2)),
        Shape::new(&["vle16ff.v v8, (x10)", "vle16ff.v v8, (x10), v0.t"])
            .to(8, Bits(4))
            .access(Access::FaultOnlyFirst(2)),
        Shape::new(&["vse32.v v8, (x10)", "vse32.v v8, (x10), v0.t"])
            .from(8, Bits(5))
            .access(Access::Unit(4)),
        Shape::new(&["vlseg8e16.v v8, (x10)", "vlseg8e16.v v8, (x10), v0.t"])
            .to_fields(8, Bits(4), 8)
            .access(Access::Unit(16)),
        Shape::new(&["vsseg3e8.v v26, (x10)", "vsseg3e8.v v26, (x10), v0.t"])
            .from_fields(26, Bits(3), 3)
            .access(Access::Unit(3)),
    ]
}

/// Loads and stores of masks and of whole registers.
pub(crate) fn of_registers() -> [Shape; 5] {
    [
        Shape::new(&["vlm.v v9, (x10)"])
            .to(9, Mask)
            .access(Access::Mask),
        Shape::new(&["vsm.v v9, (x10)"])
            .from(9, Mask)
            .access(Access::Mask),
        Shape::new(&["vl8re64.v v8, (x10)"])
            .to(8, Whole(8))
            .access(Access::Whole(32, 8))
            .untyped(),
        Shape::new(&["vs1r.v v9, (x10)"])
            .from(9, Whole(1))
            .access(Access::Whole(32, 1))
            .untyped(),
        Shape::new(&["vs2r.v v9, (x10)"])
            .from(9, Whole(2))
            .access(Access::Whole(64, 1))
            .untyped(),
    ]
}

/// Loads and stores of strided and indexed elements.
pub(crate) fn scattered() -> [Shape; 8] {
    [
        Shape::new(&["vlse32.v v8, (x10), x11", "vlse32.v v8, (x10), x11, v0.t"])
            .to(8, Bits(5))
            .access(Access::Strided),
        Shape::new(&["vssseg2e64.v v8, (x10), x11"])
            .from_fields(8, Bits(6), 2)
            .access(Access::Strided),
        Shape::new(&["vluxei8.v v8, (x10), v16", "vloxei8.v v8, (x10), v16, v0.t"])
            .to(8, Sew(0))
            .from(16, Bits(3))
            .access(Access::Indexed(8)),
        Shape::new(&["vluxei16.v v8, (x10), v8"])
            .to(8, Sew(0))
            .from(8, Bits(4))
            .access(Access::Indexed(16)),
        Shape::new(&["vloxei32.v v8, (x10), v16, v0.t"])
            .to(8, Sew(0))
            .from(16, Bits(5))
            .access(Access::Indexed(32)),
        Shape::new(&["vsuxei64.v v8, (x10), v8", "vsoxei64.v v8, (x10), v8, v0.t"])
            .from(8, Sew(0))
            .from(8, Bits(6))
            .access(Access::Indexed(64)),
        Shape::new(&["vluxseg2ei16.v v8, (x10), v16"])
            .to_fields(8, Sew(0), 2)
            .from(16, Bits(4))
            .access(Access::Indexed(16))
            .sharing(Sharing::Apart),
        Shape::new(&["vloxseg2ei16.v v8, (x10), v9"])
            .to_fields(8, Sew(0), 2)
            .from(9, Bits(4))
            .access(Access::Indexed(16))
            .sharing(Sharing::Apart),
    ]
}
