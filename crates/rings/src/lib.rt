#![tactic(auto)]

pub mod binary;
pub mod bytes;
pub mod examples;
pub mod field;
pub mod mod101;
mod mod101_inverses;
pub mod numbers;
pub mod power_theorems;
mod powers;
mod powers_of_three;
pub mod ring;
pub mod tie;
pub mod words;

pub use binary::Binary;
pub use bytes::Bytes;
pub use examples::published_product;
pub use field::Field;
pub use mod101::Mod101;
pub use numbers::below;
pub use power_theorems::{powers_make_a_field, powers_of_three_make_the_byte_field};
pub use ring::{Ring, is_code};
pub use tie::Tie;
pub use words::Words;
