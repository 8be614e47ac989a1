// What the programs share: standard input, standard output, and what is said on standard error.

#![tactic(auto)]

mod digits;
mod input;
mod output;
mod unread;

pub use digits::Hex;
pub use input::{after_line, behind, front, read_full, zeros};
pub use output::{Ending, Output};
pub use unread::{MOST_TEXT, Unread};
