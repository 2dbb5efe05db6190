//! The tally whose numbers can be read.
ghost use Rattle.std.specs.Prelude.{◌≡◌, false};

use layer_tiles::Tally;
use std::marker::Model;

/// The tally whose numbers can be read.
#[derive(Drop)]
pub struct Counts {
    looks: u64,
    picks: u64,
    parts_out: u8,
    is_part: bool,
}

impl Model for Counts {
    ghost use Rattle.layer_tiles.specs.Tallies.{TallyState};

    ghost Value = { TallyState };

    ghost view = { λ c. record { looks = c.looks; picks = c.picks; parts_out = c.parts_out; is_part = c.is_part } };
}

impl Counts {
    /// A tally that has counted nothing, and is no part of another.
    pub fn new() -> Counts
        ensures { result ≡ record { looks = 0; picks = 0; parts_out = 0; is_part = false } }
    {
        Counts {
            looks: 0,
            picks: 0,
            parts_out: 0,
            is_part: false,
        }
    }

    /// How many looks were counted.
    pub fn looks(&self) -> u64
        ensures { result ≡ self.now.looks }
    {
        self.looks
    }

    /// How many picks were counted.
    pub fn picks(&self) -> u64
        ensures { result ≡ self.now.picks }
    {
        self.picks
    }
}

impl Tally for Counts {
    ghost counts = { λ c. c };

    fn look(&mut self) {
        self.looks = self.looks.saturating_add(1);
    }

    fn pick(&mut self) {
        self.picks = self.picks.saturating_add(1);
    }

    fn fork(&mut self) -> Counts {
        self.parts_out += 1;
        Counts {
            looks: 0,
            picks: 0,
            parts_out: 0,
            is_part: true,
        }
    }

    fn absorb(&mut self, part: Counts) {
        self.looks = self.looks.saturating_add(part.looks);
        self.picks = self.picks.saturating_add(part.picks);
        self.parts_out -= 1;
    }
}
