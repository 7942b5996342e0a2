// The lists of an image's bytes (document 01, module 4): the separator list and the array of C. Each
// answers a text and its length, or a refusal.
#![tactic(auto)]

mod byte_list;
mod c_array;
mod separator;

pub use c_array::format_c_array;
pub use separator::format_separator;
