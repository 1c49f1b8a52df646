//! Laws of loads: a step leads from one stage to the next, and so do the transactions of several workers in
//! whatever interleaving.
#![tactic(auto)]

mod laws;

pub use laws::{a_step_goes_on, workers_go_on};
