//! Files of worked examples, which the programs of examples read: each case is tried, and what comes of it is compared
//! with what was written down beforehand.
//!
//! For each case in which something else came, `CASE: wanted ..; got ..` is printed, and behind the cases of a file
//! `FILE: N cases, M wrong`.
//!
//! **How a file is written.** Blank lines and lines that begin with `#` say nothing. `case NAME` begins a case, whose
//! lines are those up to the next one: a word, and what belongs to it. `let NAME PARTS` names a text for the lines
//! below. PARTS is a text in parts, one behind the other: what stands between two `"`, the name of a text, or
//! `repeat N` and one of these. Between quotes `\n`, `\r`, `\"` and `\\` are what they are in Rust, and `\xHH` is the
//! byte of that hexadecimal number.
#![tactic(auto)]

mod fault;
mod lines;
mod services;
mod tables;
mod texts;
mod trials;
mod verdicts;

pub use fault::Fault;
pub use lines::{begin_line, put_line};
pub use services::{flow_of, service_of};
pub use tables::{Case, Line, Table};
pub use texts::{Texts, escaped};
pub use trials::{Kind, try_files};
pub use verdicts::{Tally, Verdict};
