// The plain exporters (document 01, module 2): the binary file and the digits of an image. Each
// answers a text and its length, or refusal 1 or 8; digits also refusal 2, where a digit has no width
// from 1 to 5 bits.
#![tactic(auto)]

mod binary;
mod digit_str;

pub use binary::{Binary, format_binary};
pub use digit_str::{format_binstr, format_hexstr, format_str};
