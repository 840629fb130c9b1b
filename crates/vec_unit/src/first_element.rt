//! Writing of one number to element 0 of a register ("V" Vector Extension 1.0, chapter 14 and section 16.1).
ghost use Rattle.std.specs.Prelude.{◌≡◌, ⊤, nat_lt, true};
ghost use Rattle.rv_model.specs.elements.Arithmetic.{with_first_result};

use crate::destination::{Destination, write_group};
use lane_arith::{Body, Lane, Results};
use rv_model::VFile;

/// The same number for each element.
#[derive(Clone, Copy, Drop)]
struct Same<L> {
    number: L,
}

impl<L: Lane> Results<L> for Same<L> {
    ghost number = { λ r i. L.value r.number };

    ghost has = { λ r i. ⊤ };

    fn result(&self, index: usize) -> L {
        self.number
    }
}

/// Write a number to element 0 of the destination's first register, if the body has an element, and fill the tail
/// of that register.
pub(crate) fn write_first<L: Lane>(number: L, to: Destination, body: &Body<'_>, file: &mut VFile)
    requires tail { to.fill_tail ≡ true → nat_lt body.now.start body.now.end ≡ true }
    ensures { file.new ≡ with_first_result L.width to.vd body.now to.fill_tail (L.value number) file.old }
{
    let first = Body::new(true, body.mask(), 0, usize::from(body.start() < body.end()));
    let destination = Destination {
        emul: 8,
        count: L::count(),
        ..to.with_masked_off_unchanged()
    };
    write_group::<L, Same<L>>(&Same { number }, destination, &first, file);
}
