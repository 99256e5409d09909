// Rows as text: the text of a row, and a text read into a row. What the calls answer and leave stands in specs/Calls.antt.

#![tactic(auto)]

mod fmt;
mod parse;

pub use fmt::fmt_elem;
pub use parse::parse_elem;
