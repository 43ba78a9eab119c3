//! Tokens, and the texts and lists that they are made of.
#![tactic(auto)]

mod fields;
mod items;
mod name;
mod printed;
mod text;
mod token;
mod token_text;

pub use fields::{Field, Fields, FieldsFault};
pub use items::Items;
pub use name::is_name;
pub use printed::print;
pub use text::Text;
pub use token::Token;
pub use token_text::TokenText;
