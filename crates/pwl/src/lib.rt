// The log file of docs/PWL.md. What a file holds and which bytes are one stands in specs/File.antt, what the calls answer and leave in
// specs/Calls.antt.

#![tactic(auto)]

mod bytes;
mod opening;
mod reading;
mod storing;
mod testing;
mod writing;

pub use opening::open;
pub use reading::read;
pub use writing::write;

// The numbers in front of a file: n, m, and how many columns, listed rows, extra rows and log entries it has.
#[derive(Clone, Copy, Debug, PartialEq, Eq)]
pub struct Front {
    pub n: usize,
    pub m: usize,
    pub order: usize,
    pub listed: usize,
    pub extra: usize,
    pub entries: usize,
}

// Where the parts begin, in bytes, and how many words an X or Z part and a phase part have.
#[derive(Clone, Copy)]
pub(crate) struct Places {
    pub(crate) listed: usize,
    pub(crate) extra: usize,
    pub(crate) start: usize,
    pub(crate) log: usize,
    pub(crate) claim: usize,
    pub(crate) words: usize,
    pub(crate) phases: usize,
}
