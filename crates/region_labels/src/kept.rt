//! A label as lists keep it.
ghost use Rattle.std.specs.Prelude.{◌≡◌, ◌<◌, None, Some, pos, suc};

use layer_tiles::{Cell, Value};
use std::marker::Model;

/// The number, from 1, of a place, or none: the number 0.
#[derive(Clone, Copy)]
pub struct Label {
    number: u32,
}

impl Model for Label {
    ghost use Rattle.std.specs.Prelude.{ℤ, Option};
    ghost use Rattle.std.proofs.Common.{ap};
    ghost use Rattle.region_labels.specs.Labels.{kept_label, number_of, number_back};

    ghost Value = { Option ℤ };

    ghost view = { λ l. kept_label l.number };

    ghost inverse = { λ o. record { number = number_of o } };

    ghost inverse_ok = { λ a h. ap (λ n. record { number = n }) (number_back a.number) };
}

impl Label {
    pub fn none() -> Label
        ensures { result ≡ None }
    {
        Label { number: 0 }
    }

    /// The label of a region that begins at a place.
    pub fn of(first: u32) -> Label
        requires { first < 1500000 }
        ensures { result ≡ Some (pos (suc first)) }
    {
        Label { number: first + 1 }
    }

    pub fn get(&self) -> Option<Value>
        ensures value { result ≡ self.now }
    {
        if self.number == 0 {
            None
        } else {
            Some(Value::from(self.number))
        }
    }

    /// The label as a cell, null where there is none.
    pub fn cell(&self) -> Cell
        ensures { result ≡ self.now }
    {
        if self.number == 0 {
            Cell::null()
        } else {
            Cell::within(Value::from(self.number))
        }
    }
}
