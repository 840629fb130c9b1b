//! Per-user adapters, through which instructions borrow a user's vector state.
ghost use Rattle.std.specs.Prelude.{◌≡◌};
ghost use Rattle.std.specs.Borrow.{sem, Lends};
ghost use Rattle.rv_model.specs.declared.vector.state.Seat.{Seat};
ghost use Rattle.rv_model.specs.contracts.vector.state.Seat as seat_type;
ghost use Rattle.rv_model.specs.lending.Seats.{IsGivenBack};

use rv_model::Seat;

/// Per-user adapter, which provides one user's vector state to each instruction that touches it.
pub trait Vectors {
    // The adapter can provide the seat.
    ghost ready: { Self → Type 0 };

    // The seat that `seat` returns.
    ghost lent: { Self → Seat };

    // The adapter after the borrow ended with this value of the seat.
    ghost back: { Self → Seat → Self };

    /// Borrow the user's vector state. A caller that changes it marks it as dirty, and never clears the mark.
    fn seat(&mut self) -> &mut Seat
        requires { ready self.old }
        ensures* writes_back { sem 𝓛 (Lends Self.row seat_type.the_row self.entry result (back self.old)) }
        ensures value { result.now ≡ lent self.old };

    // The adapter can provide the seat again, if the borrow ended with a dirty or unchanged seat.
    ghost ready_again: { (v : Self) (s : Seat) → ready v → IsGivenBack (lent v) s → ready (back v s) };

    // The next borrow starts with the value with which the last one ended.
    ghost lent_again: { (v : Self) (s : Seat) → ready v → lent (back v s) ≡ s };
}

/// Adapter that provides the same vector state to each instruction.
#[derive(Drop)]
pub struct SingleSlot {
    pub seat: Seat,
}

impl Vectors for SingleSlot {
    ghost use Rattle.std.specs.Prelude.{⊤};
    ghost use Rattle.std.proofs.Common.{refl};

    ghost ready = { λ _. ⊤ };

    ghost lent = { λ v. v.seat };

    ghost back = { λ v s. record v { seat = s } };

    ghost ready_again = { λ _ _ is _. is };

    ghost lent_again = { λ _ _ _. refl };

    #[inline(always)]
    fn seat(&mut self) -> &mut Seat {
        &mut self.seat
    }
}
