//! The data that all layers share: lists, boxes, names, values, types, expressions, patterns, processes, programs of both
//! levels, and events.
//!
//! A list is seen as its items, and a box and what is shared as their content, so contracts see trees. A copy equals its
//! original, and `same` is equality. An expression and a process keep their form on the heap, so what holds one is small. A
//! process counts the owners of its form: a copy shares it, takes no memory and walks over nothing. A form that is made of its
//! parts and of copies of the rest is that form. The printed text of a value is that of the table in docs/LANGUAGE.md. Chains of
//! conditions (`>>=`, `need`), the escapes of strings and the limits, as named constants, stand here once for all crates.
//!
//! Contracts: `copy`, `same`, `process_forms`, `print_value`.
#![tactic(auto)]

mod boxed;
mod copies;
mod event;
mod expression;
mod limits;
mod list;
mod memory;
mod pattern;
mod printed;
mod process;
pub mod process_forms;
mod program;
mod shared;
mod types;
mod value;

pub use boxed::Boxed;
pub use copies::{copy_bound, copy_pair};
pub use event::{End, Event, Kind, Made};
pub use expression::{Expr, ExprForm, Op};
pub use limits::{
    DEEPEST, LARGEST_BUDGET, LARGEST_INTEGER, LARGEST_NUMBER, LONGEST_NAME, LONGEST_SOURCE,
    LONGEST_STRING, LONGEST_TEXT, MOST_BINDERS, MOST_EVENTS, MOST_NODES, MOST_PARTS, MOST_SITES,
    MOST_TOKENS, STAMPS_END, USUAL_BUDGET, WIDEST_TYPE,
};
pub use list::{List, Text, copy_texts};
pub use memory::Memory;
pub use pattern::{Pat, PatForm};
pub use printed::print_value;
pub use process::{Proc, ProcForm, Role, Tag};
pub use program::{LowProgram, Program};
pub use shared::Shared;
pub use types::{Cap, Ty};
pub use value::{Name, Value};
