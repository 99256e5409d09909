// Numbers and lists as text over lent byte slices. A reader takes the bytes and a place and answers a value and the place
// behind it, or None; a writer puts a text at a place of a lent slice and answers the place behind it, or None where it does
// not fit, and then leaves all as it was. Bytes and place go side by side, since a `&mut` in a struct would make every contract speak through it.

#![tactic(auto)]

mod field;
mod list;
mod read;
mod write;
mod write_list;

pub use field::{number_after, number_field, word_field};
pub use list::{
    bytes_field, floats_field, halves_field, ints_field, log_field, octets_field, words_field,
};
pub use read::{canonical, decimal, float, hexadecimal, integer, starts};
pub use write::{put_byte, put_decimal, put_float, put_hexadecimal, put_integer, put_text};
pub use write_list::{put_bytes, put_halves, put_words};
