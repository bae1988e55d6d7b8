//! A run as one HTML file, which needs no network: the source, what was printed, pictures of both levels, and tables of their
//! events.
//!
//! The text of a page is made of its parts, one by one (`page_text`): each line of the source stands in it once, and each event once
//! in its table, in their order, with the number of its place. It is formed where its pictures are (`PagesAreFormed`). The policy in
//! its head lets a browser apply and run nothing but the styles and the script that stand in the page, by their digests. Of colours
//! and of what the script does nothing is promised.
//!
//! Contracts: `page_text`, `law_pages_formed` (`PagesAreFormed`).
#![tactic(auto)]

mod head;
mod laws;
mod marks;
mod page;
mod parts;
mod script;
mod source;
mod style;
mod tables;
mod views;
mod whole;

pub use laws::law_pages_formed;
pub use page::{Level, Page, Printed, Row, View};
pub use script::SCRIPT;
pub use style::STYLE;
pub use whole::page_text;
