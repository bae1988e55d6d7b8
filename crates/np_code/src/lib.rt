//! The process nodes of a low program as a table, in which a process is a number.
//!
//! `flatten` gives the table of a low program, or TooManyNodes exactly if main and daemon together have more than 65,536
//! process nodes, with their number, or with the greatest one of 64 bits if it is greater than that. `unflatten` gives the
//! low program that the table stands for. A node comes after its parts, so each part has a smaller number; a number that has
//! no node stands for `0`, so looking one up has no condition. All sites of a crew share one table.
//!
//! Contracts: `flatten`, `unflatten`, `Code::node`.
#![tactic(auto)]

mod code;
mod fail;
mod flattening;
mod limits;
mod node;
mod node_forms;
mod parts;
mod sizes;
mod table;
mod unflattening;

pub use code::Code;
pub use fail::CodeFail;
pub use flattening::flatten;
pub use limits::MOST_CODE_NODES;
pub use node::{Node, NodeForm};
pub use unflattening::unflatten;
