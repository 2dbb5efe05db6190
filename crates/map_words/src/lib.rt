//! The words of a line, and which of them are names and numbers.
//!
//! [`words`] cuts a line into [`Word`]s, each with its column; a [`Name`] is made of a word's text.
#![tactic(auto)]

mod bytes;
mod cutting;
mod name;
mod naming;
mod numbers;
mod reserved;

pub use bytes::is_silent;
pub use cutting::{Word, WordRefusal, words};
pub use name::Name;
pub use naming::{NameRefusal, has_name_form, is_dotted, is_plain};
pub use numbers::{is_number, number_in};
pub use reserved::is_reserved;
