// The Intel HEX export (document 01, module 8), and two of them side by side (demand 3). It answers a
// text and its length, or a refusal: 1, 2, 3, 5 or 8.
#![tactic(auto)]

mod both;
mod hex;
mod low;
mod plan;
mod text;

pub use both::{Both, format_both};
pub use hex::format_intelhex;
