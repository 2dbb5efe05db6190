//! What is found under the keys of a header.
ghost use Rattle.std.specs.Prelude.{◌≡◌, IfOk};
ghost use Rattle.std.specs.Option.{option_map};
ghost use Rattle.grid_text.specs.Keys.{nothing, is_there, with_value, decimal_in};

use crate::Corner;
use crate::decimals::is_decimal;
use crate::keys::Key;
use crate::numbers::{count, number};
use layer_tiles::Text;
use map_nums::NoMemory;
use std::alloc::Global;

/// What is found in the pairs of a header.
#[derive(Drop)]
pub(crate) struct Found {
    pub(crate) columns: Option<u64>,
    pub(crate) rows: Option<u64>,
    pub(crate) x: Option<Corner>,
    pub(crate) y: Option<Corner>,
    pub(crate) size: Option<Text>,
    pub(crate) null: Option<i64>,
}

impl Found {
    /// Before the first pair.
    pub(crate) fn nothing() -> Found
        ensures { result ≡ nothing }
    {
        Found {
            columns: None,
            rows: None,
            x: None,
            y: None,
            size: None,
            null: None,
        }
    }

    /// Whether a value is there under the key.
    pub(crate) fn is_there(&self, key: Key) -> bool
        ensures { result ≡ is_there key self.now }
    {
        match key {
            Key::Columns => self.columns.is_some(),
            Key::Rows => self.rows.is_some(),
            Key::X(_) => self.x.is_some(),
            Key::Y(_) => self.y.is_some(),
            Key::Size => self.size.is_some(),
            Key::Null => self.null.is_some(),
        }
    }

    /// With one more value, none where it isn't of its key's form.
    pub(crate) fn with_value(
        self,
        alloc: Global,
        key: Key,
        value: &[u8],
    ) -> Result<Option<Found>, NoMemory>
        ensures { IfOk result (λ found. found ≡ with_value self key value.now) }
    {
        match key {
            Key::Columns => Ok(self.with_columns(count(value))),
            Key::Rows => Ok(self.with_rows(count(value))),
            Key::X(center) => Ok(self.with_x(center, decimal(alloc, value)?)),
            Key::Y(center) => Ok(self.with_y(center, decimal(alloc, value)?)),
            Key::Size => Ok(self.with_size(decimal(alloc, value)?)),
            Key::Null => Ok(self.with_null(number(value))),
        }
    }

    fn with_columns(self, count: Option<u64>) -> Option<Found>
        ensures { result ≡ option_map (λ n. record self { columns = Some n }) count }
    {
        match count {
            None => None,
            Some(n) => Some(Found {
                columns: Some(n),
                ..self
            }),
        }
    }

    fn with_rows(self, count: Option<u64>) -> Option<Found>
        ensures { result ≡ option_map (λ n. record self { rows = Some n }) count }
    {
        match count {
            None => None,
            Some(n) => Some(Found {
                rows: Some(n),
                ..self
            }),
        }
    }

    fn with_x(self, center: bool, decimal: Option<Text>) -> Option<Found>
        ensures { result ≡ option_map (λ t. record self { x = Some (record { center = center; text = t }) }) decimal }
    {
        match decimal {
            None => None,
            Some(text) => Some(Found {
                x: Some(Corner { center, text }),
                ..self
            }),
        }
    }

    fn with_y(self, center: bool, decimal: Option<Text>) -> Option<Found>
        ensures { result ≡ option_map (λ t. record self { y = Some (record { center = center; text = t }) }) decimal }
    {
        match decimal {
            None => None,
            Some(text) => Some(Found {
                y: Some(Corner { center, text }),
                ..self
            }),
        }
    }

    fn with_size(self, decimal: Option<Text>) -> Option<Found>
        ensures { result ≡ option_map (λ t. record self { size = Some t }) decimal }
    {
        match decimal {
            None => None,
            Some(text) => Some(Found {
                size: Some(text),
                ..self
            }),
        }
    }

    fn with_null(self, number: Option<i64>) -> Option<Found>
        ensures { result ≡ option_map (λ z. record self { null = Some z }) number }
    {
        match number {
            None => None,
            Some(z) => Some(Found {
                null: Some(z),
                ..self
            }),
        }
    }
}

// The text of a decimal, none where it is no decimal.
fn decimal(alloc: Global, value: &[u8]) -> Result<Option<Text>, NoMemory>
    ensures { IfOk result (λ text. text ≡ decimal_in value.now) }
{
    if is_decimal(value) {
        Ok(Some(Text::of(alloc, value)?))
    } else {
        Ok(None)
    }
}
