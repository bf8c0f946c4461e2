//! What a command asks of its files before there is work, one question after another, and the lines of each refusal.
#![tactic(auto)]

mod checking;
mod explaining;
mod fault_lines;
mod formats;
mod judging;
mod lighting;
mod lines;
mod loading;
mod reporting;
mod schemas;
mod seen;
mod sight;
mod stop;
mod tools;

pub use bw_command::{Refusal, Status};
pub use checking::{Kept, Served, load_accepted, load_checked, load_kept, made_checked};
pub use explaining::load_explained;
pub use fault_lines::push_shown;
pub use judging::load_valid;
pub use lighting::load_lights;
pub use lines::{paired, placed};
pub use loading::{fetch_bytes, no_file, refused};
pub use reporting::{print_line, print_text, report};
pub use stop::Stop;
pub use tools::Tools;
