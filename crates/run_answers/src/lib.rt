//! What a run of either program comes to, as types and definitions: its answer, its exit status and the one
//! line of its report. `run_reports` computes them.
//!
//! - `answer`: what a run comes to.
//! - `fault`: why a run ended before its end, in groups.
//! - `program`: the two programs.
#![tactic(auto)]

mod answer;
mod fault;
mod program;

pub use answer::Answer;
pub use fault::{
    CommandLineFault, FolderFault, LimitFault, LongName, NameFault, ObjectFault, OutsideFault,
    ProtocolFault, RunFault, TargetFault,
};
pub use program::Program;
