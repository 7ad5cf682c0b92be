//! The trimmer of joint proofs: it keeps the steps that a refutation needs.
//!
//! A call takes constant time where neither it nor its type tells a cost.
#![tactic(auto)]

mod kept;
pub mod laws;
mod marks;
mod needed;
mod trimming;

pub use kept::Kept;
pub use trimming::{TrimRefusal, trim};
