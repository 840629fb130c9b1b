//! Instructions on vector registers.
use crate::shapes::Elements::{Bits, Mask, One, Sew, Whole};
use crate::shapes::{Shape, Sharing};

/// Operations of one width, and vset instructions.
pub(crate) fn of_one_width() -> [Shape; 4] {
    [
        Shape::new(&[
            "vsetvli x5, x6, e8, m1, ta, ma",
            "vsetivli x5, 3, e64, m8, tu, mu",
            "vsetvl x5, x6, x7",
            "vsetvli x0, x0, e16, m2, ta, ma",
        ])
        .untyped(),
        Shape::new(&[
            "vadd.vv v8, v16, v24",
            "vminu.vv v8, v16, v24, v0.t",
            "vdiv.vv v8, v16, v24, v0.t",
            "vmacc.vv v8, v24, v16",
            "vssub.vv v8, v16, v24",
            "vaadd.vv v8, v16, v24, v0.t",
            "vadc.vvm v8, v16, v24, v0",
            "vmerge.vvm v8, v16, v24, v0",
        ])
        .to(8, Sew(0))
        .from(16, Sew(0))
        .from(24, Sew(0)),
        Shape::new(&[
            "vxor.vi v8, v8, 5",
            "vsll.vx v8, v8, x5, v0.t",
            "vslidedown.vi v8, v8, 1",
            "vslide1down.vx v8, v8, x5, v0.t",
        ])
        .to(8, Sew(0))
        .from(8, Sew(0)),
        Shape::new(&[
            "vadd.vx v0, v8, x5, v0.t",
            "vadc.vxm v0, v8, x5, v0",
            "vmerge.vim v0, v8, 1, v0",
            "vrsub.vi v0, v8, 1",
        ])
        .to(0, Sew(0))
        .from(8, Sew(0)),
    ]
}

/// High products, and moves.
pub(crate) fn products_and_moves() -> [Shape; 4] {
    [
        Shape::new(&[
            "vmulh.vv v8, v16, v24",
            "vmulhsu.vv v8, v16, v24, v0.t",
            "vsmul.vv v8, v16, v24",
        ])
        .to(8, Sew(0))
        .from(16, Sew(0))
        .from(24, Sew(0))
        .below_64(),
        Shape::new(&["vmv.v.x v8, x5", "vmv.v.i v8, -1", "vid.v v8, v0.t"]).to(8, Sew(0)),
        Shape::new(&["vmv8r.v v8, v16"])
            .to(8, Whole(8))
            .from(16, Whole(8)),
        Shape::new(&["vmv.s.x v9, x5"]).to(9, One(0)),
    ]
}

/// Operations of two widths.
pub(crate) fn of_two_widths() -> [Shape; 9] {
    [
        Shape::new(&[
            "vwadd.vv v8, v16, v24",
            "vwmulu.vv v8, v16, v24, v0.t",
            "vwmacc.vv v8, v24, v16",
        ])
        .to(8, Sew(1))
        .from(16, Sew(0))
        .from(24, Sew(0)),
        Shape::new(&["vwsub.vx v8, v10, x5", "vwmaccus.vx v8, x5, v10"])
            .to(8, Sew(1))
            .from(10, Sew(0)),
        Shape::new(&["vwaddu.vx v8, v8, x5, v0.t"])
            .to(8, Sew(1))
            .from(8, Sew(0)),
        Shape::new(&["vwadd.wv v8, v16, v24", "vwsubu.wv v8, v16, v24, v0.t"])
            .to(8, Sew(1))
            .from(16, Sew(1))
            .from(24, Sew(0)),
        Shape::new(&["vnsrl.wv v8, v16, v24", "vnclip.wv v8, v16, v24, v0.t"])
            .to(8, Sew(0))
            .from(16, Sew(1))
            .from(24, Sew(0)),
        Shape::new(&["vnsra.wi v8, v8, 3", "vnclipu.wx v8, v8, x5"])
            .to(8, Sew(0))
            .from(8, Sew(1)),
        Shape::new(&["vnsra.wi v9, v8, 3, v0.t"])
            .to(9, Sew(0))
            .from(8, Sew(1)),
        Shape::new(&["vzext.vf2 v8, v12", "vsext.vf2 v8, v12, v0.t"])
            .to(8, Sew(0))
            .from(12, Sew(-1)),
        Shape::new(&["vzext.vf8 v8, v15", "vsext.vf8 v8, v15, v0.t"])
            .to(8, Sew(0))
            .from(15, Sew(-3)),
    ]
}

/// Instructions whose results are masks.
pub(crate) fn mask_results() -> [Shape; 4] {
    [
        Shape::new(&[
            "vmadc.vvm v8, v16, v24, v0",
            "vmseq.vv v8, v16, v24, v0.t",
            "vmsbc.vv v8, v16, v24",
        ])
        .to(8, Mask)
        .from(16, Sew(0))
        .from(24, Sew(0)),
        Shape::new(&["vmslt.vx v8, v8, x5", "vmsgtu.vi v8, v8, 1"])
            .to(8, Mask)
            .from(8, Sew(0)),
        Shape::new(&["vmsle.vi v9, v8, 1, v0.t"])
            .to(9, Mask)
            .from(8, Sew(0)),
        Shape::new(&["vmseq.vx v0, v8, x5, v0.t"])
            .to(0, Mask)
            .from(8, Sew(0))
            .sharing(Sharing::ByWidthOrMask),
    ]
}

/// Instructions on masks, and reductions.
pub(crate) fn on_masks() -> [Shape; 6] {
    [
        Shape::new(&["vmand.mm v9, v9, v11", "vmxnor.mm v9, v9, v11"])
            .to(9, Mask)
            .from(9, Mask)
            .from(11, Mask),
        Shape::new(&["vcpop.m x5, v9", "vfirst.m x5, v9, v0.t"])
            .from(9, Mask)
            .at_zero(),
        Shape::new(&["vmsbf.m v9, v10, v0.t", "vmsof.m v9, v10"])
            .to(9, Mask)
            .from(10, Mask)
            .sharing(Sharing::Apart)
            .at_zero(),
        Shape::new(&["viota.m v8, v9", "viota.m v8, v9, v0.t"])
            .to(8, Sew(0))
            .from(9, Mask)
            .sharing(Sharing::Apart)
            .at_zero(),
        Shape::new(&["vredsum.vs v0, v16, v25, v0.t", "vredmax.vs v0, v16, v25"])
            .to(0, One(0))
            .from(16, Sew(0))
            .from(25, One(0))
            .sharing(Sharing::Any)
            .at_zero(),
        Shape::new(&["vwredsum.vs v9, v16, v25, v0.t"])
            .to(9, One(1))
            .from(16, Sew(0))
            .from(25, One(1))
            .sharing(Sharing::Any)
            .at_zero(),
    ]
}

/// Permutations.
pub(crate) fn permutations() -> [Shape; 6] {
    [
        Shape::new(&[
            "vslideup.vx v8, v16, x5",
            "vslide1up.vx v8, v16, x5, v0.t",
            "vrgather.vi v8, v16, 3",
        ])
        .to(8, Sew(0))
        .from(16, Sew(0))
        .sharing(Sharing::Apart),
        Shape::new(&["vslideup.vi v8, v8, 1", "vrgather.vx v8, v8, x5"])
            .to(8, Sew(0))
            .from(8, Sew(0))
            .sharing(Sharing::Apart),
        Shape::new(&["vrgatherei16.vv v8, v16, v24, v0.t"])
            .to(8, Sew(0))
            .from(16, Sew(0))
            .from(24, Bits(4))
            .sharing(Sharing::Apart),
        Shape::new(&["vcompress.vm v8, v16, v9"])
            .to(8, Sew(0))
            .from(16, Sew(0))
            .from(9, Mask)
            .sharing(Sharing::Apart)
            .at_zero(),
        Shape::new(&["vrgather.vv v8, v16, v24, v0.t"])
            .to(8, Sew(0))
            .from(16, Sew(0))
            .from(24, Sew(0))
            .sharing(Sharing::Apart),
        Shape::new(&["vmv.x.s x5, v9"]).from(9, One(0)),
    ]
}
