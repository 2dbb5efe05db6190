//! Laws of tickets.
ghost use Rattle.std.specs.Prelude.{◌≡◌, List, slice_index};
ghost use Rattle.atomic_table.specs.Table.{State};
ghost use Rattle.tile_workers.specs.declared.seat.View.{View};
ghost use Rattle.tile_workers.specs.Rule.{IsBoard, marks};
ghost use Rattle.tile_workers.specs.Tickets.{TicketState, Event, LeadsAll, first_state};
ghost use Rattle.tile_workers.specs.TicketLaws.{EachStandsOnce};

/// After any list of events, in which seats split, draw and join in any order, each number below the next stands with one live
/// seat, once, and a seat with every share holds them all.
pub fn each_ticket_stands_once()
    ensures { (events : List Event) (s : TicketState) → LeadsAll first_state events s → EachStandsOnce s }
{}

/// The same of every state of a board's word and seats that the rule lets come, as long as no draw found the last number of 64
/// bits.
pub fn board_tickets_stand_once()
    ensures { (s : State (Unit {0}) View) → IsBoard s → marks s.views ≡ 0 → EachStandsOnce record { next = slice_index s.words 0; seats = s.views } }
{}
