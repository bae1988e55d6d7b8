//! The low text: how a low program is written for people to read.
//!
//! `print_low` writes it, for every low program, with the words of np_show.
//!
//! Contracts: `print_low`.
#![tactic(auto)]

mod expressions;
mod names;
mod patterns;
mod processes;
mod programs;

pub use programs::print_low;
