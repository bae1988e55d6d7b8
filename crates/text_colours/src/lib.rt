//! The colours of a diagnosis on a terminal: its first line bold, and `wanted:`, `why:` and `next:`; the mark of what is refused
//! with its label red, and the mark beside it cyan.
//!
//! The text is cut into pieces, which are the text, in its order; each that is painted stands between two sequences, of which the
//! second ends the paint (`IsColoured`). Which pieces are painted is not promised.
//!
//! Contracts: `coloured` (`IsColoured`).
#![tactic(auto)]

mod paint;
mod pieces;
mod spots;

pub use paint::{Paint, coloured};
pub use pieces::Piece;
