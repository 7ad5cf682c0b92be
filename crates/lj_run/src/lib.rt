//! Runs of the checker over streams and files.
//!
//! A call takes constant time where neither it nor its type tells a cost.
#![tactic(auto)]

mod args;
mod assigned;
mod block;
mod body;
mod book_seat;
mod checking;
mod command_line;
mod cut_list;
mod entering;
mod explaining;
mod fault;
pub mod files;
mod in_turn;
mod joint;
mod line_text;
mod misuse;
mod opening;
pub mod outcome;
mod paths_so_far;
mod printing;
mod progress;
mod proving;
mod reading;
mod reasons;
mod running;
mod starting;
mod status;
mod stream;
mod watch;

pub use body::program;
pub use checking::{CheckFault, Checked, Verdict, check};
pub use files::{FileFault, Files, MachineFiles};
pub use in_turn::run_in_turn;
pub use joint::run_joint;
pub use outcome::{End, LineEnd, Options, Outcome, ProofEnd, ProofFault, Report, RunFault, Way};
pub use starting::start;
pub use watch::Watch;
