//! The tokens that are wanted at a place of a source: those with which some program begins that has the tokens before it.
//!
//! A kind of tokens is wanted exactly where np reads the text up to the place, with such a token behind it, and does not refuse it
//! at that token (`GoesOn`, `Stops`). So the grammar decides and no table. At the place of a refusal of np the tokens before it begin
//! a program, so none of them is refused: there a kind is wanted exactly if they begin one with a token of the kind behind them.
//!
//! Contracts: `wanted_at` (`AreWanted`: each kind is answered and wanted, or neither; `Chosen`: in the order of all kinds).
#![tactic(auto)]

mod phrase;
mod trying;

pub use phrase::phrase_of;
pub use trying::wanted_at;
