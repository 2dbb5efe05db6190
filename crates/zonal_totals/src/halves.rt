//! Pairs in halves of 32 bits.
ghost use Rattle.std.specs.Prelude.{◌≡◌};

use crate::pairs::Pair;
use map_nums::Value;
use std::marker::Model;

/// How many numbers a half has.
const HALF: u64 = 4_294_967_296;

/// A value in two halves, which may stand at any multiple of four bytes.
#[derive(Clone, Copy)]
struct Halves {
    high: u32,
    low: u32,
}

impl Model for Halves {
    ghost use Rattle.std.specs.Prelude.{ℤ, ◌^◌, ◌<◌};
    ghost use Rattle.std.proofs.Common.{ap, ◌∙◌};
    ghost use Rattle.zonal_totals.specs.Halves.{from_halves, high_half, low_half, high_half_back, low_half_back};

    ghost Value = { ℤ };

    ghost view = { λ h. from_halves h.high h.low };

    ghost invariant = { λ h. (h.high < 2 ^ 32) × (h.low < 2 ^ 32) };

    ghost inverse = { λ z. record { high = high_half z; low = low_half z } };

    ghost inverse_ok = { λ a h. ap (λ n. record { high = n; low = low_half (from_halves a.high a.low) }) (high_half_back a.high a.low h.0 h.1)
        ∙ ap (λ n. record { high = a.high; low = n }) (low_half_back a.high a.low h.0 h.1) };
}

impl Halves {
    fn of(value: Value) -> Halves
        ensures { result ≡ value }
    {
        let word = value.cast_unsigned();
        Halves {
            high: (word / HALF) as u32,
            low: (word % HALF) as u32,
        }
    }

    fn get(&self) -> Value
        ensures { result ≡ self.now }
    {
        (u64::from(self.high) * HALF + u64::from(self.low)).cast_signed()
    }
}

/// A pair as lists keep it: in 16 bytes that may stand at any multiple of four, so that a count of four bytes fits beside it.
#[derive(Clone, Copy)]
pub struct KeptPair {
    zone: Halves,
    key: Halves,
}

impl Model for KeptPair {
    ghost use Rattle.zonal_totals.specs.declared.pairs.Pair.{Pair};

    ghost Value = { Pair };

    ghost view = { λ p. record { zone = p.zone; key = p.key } };

    ghost inverse = { λ p. record { zone = p.zone; key = p.key } };
}

impl KeptPair {
    pub(crate) fn of(pair: Pair) -> KeptPair
        ensures { result ≡ pair }
    {
        KeptPair {
            zone: Halves::of(pair.zone),
            key: Halves::of(pair.key),
        }
    }

    pub(crate) fn get(&self) -> Pair
        ensures { result ≡ self.now }
    {
        Pair {
            zone: self.zone.get(),
            key: self.key.get(),
        }
    }
}
