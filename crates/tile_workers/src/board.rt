//! The steps of seats on the ticket word.
ghost use Rattle.std.specs.Prelude.{◌≡◌, ℕ, ◌+◌, ◌-◌, ◌^◌, ◌<◌, ◌≤◌, false, List, [], ◌∷◌, ◌++◌, length, IfOk};
ghost use Rattle.std.specs.List.{range_with_len};
ghost use Rattle.tile_workers.specs.Tickets.{first_view, new_view, less_one, both_views};
ghost use Rattle.tile_workers.specs.Lists.{Ascends};
ghost use Rattle.tile_workers.specs.Seats.{seat_view, drawn, share, marked, IsSeatOf, IsSameSeat};

use crate::seat::{Board, Seat};
use crate::steps::{Draw, Halve, Unite};
use atomic_table::Table;
use map_nums::NoMemory;
use std::alloc::Global;

impl Board {
    /// A board from which nothing was drawn, and its first seat, with every share.
    ///
    /// # Errors
    ///
    /// `NoMemory` where there is none for the word.
    pub fn new(alloc: Global) -> Result<(Board, Seat), NoMemory>
        ensures { IfOk result (λ r. IsSeatOf r.0 r.1 × (seat_view r.1 ≡ first_view)) }
    {
        match Table::of_words(alloc, &[0], &()) {
            Ok((table, inner)) => Ok((Board { table }, Seat { inner })),
            Err(_) => Err(NoMemory),
        }
    }

    /// A new seat, with one of this one's shares, for another thread.
    pub fn split(&self, seat: &mut Seat) -> Seat
        requires own { IsSeatOf self.now seat.old }
        requires shares { 1 < share seat.old }
        ensures same { IsSameSeat seat.old seat.new }
        ensures kept { seat_view seat.new ≡ less_one (seat_view seat.old) }
        ensures given { IsSeatOf self.now result × (seat_view result ≡ new_view) }
    {
        let inner = self.table.shared.split_seat::<Halve>(&mut seat.inner);
        Seat { inner }
    }

    /// Takes in another seat: its numbers, in order between this one's, and its shares.
    pub fn join(&self, seat: &mut Seat, other: Seat)
        requires own { IsSeatOf self.now seat.old }
        requires other { IsSeatOf self.now other }
        ensures same { IsSameSeat seat.old seat.new }
        ensures both { seat_view seat.new ≡ both_views (seat_view seat.old) (seat_view other) }
    {
        let Seat { inner } = other;
        self.table.shared.join_seat::<Unite>(&mut seat.inner, inner);
    }

    /// Draws the next number: how many were drawn before. It is the last of the seat's list from then on. One atomic step.
    ///
    /// The numbers begin anew after 2^64 of them; the mark tells of it. A seat with every share knows from its own list how many
    /// were drawn. Of any seat without the mark each number is above the one before.
    pub fn draw(&self, seat: &mut Seat) -> u64
        requires own { IsSeatOf self.now seat.old }
        ensures same { IsSameSeat seat.old seat.new }
        ensures drawn { drawn seat.new ≡ drawn seat.old ++ result ∷ [] }
        ensures share { share seat.new ≡ share seat.old }
        ensures count { share seat.old ≡ 64 → length (drawn seat.old) < 2 ^ 64 - 1 → drawn seat.old ≡ range_with_len 0 result }
        ensures above { marked seat.new ≡ false → (marked seat.old ≡ false) × Ascends (drawn seat.new) }
    {
        self.table.shared.fetch_add::<Draw>(&mut seat.inner, 0, 1)
    }

    /// How many numbers were drawn, told to a seat with every share that holds fewer than 2^64 - 1: it has drawn, or taken in, each of
    /// them.
    pub fn close(self, seat: Seat) -> u64
        requires own { IsSeatOf self seat }
        ensures all { share seat ≡ 64 → length (drawn seat) < 2 ^ 64 - 1 → (drawn seat ≡ range_with_len 0 result) × (marked seat ≡ false) }
    {
        let Board { table } = self;
        let Seat { inner } = seat;
        let closed = table.close_with(inner);
        let count = closed.word(0);
        closed.free();
        count
    }
}
