//! What atoms and packets of the low level are there for, and processes of a source under the environments of the two levels.
//! Laws only.
//!
//! A *thing* shows chips of the protocol, and may be an atom or a packet of the high level. A process in round brackets that
//! the infrastructure adds has the things of its parts. What only sends, outputs or opens is known by the values of its
//! expressions, and what binds by its text; mail goes through the same stages whatever it says. The laws say what the
//! daemon's process and the two atoms of the low start are there for, and which events can begin at an atom. Under
//! environments that agree an expression of a source has the same value and a pattern binds the same, and a source makes no
//! letter, no map, and no agent or channel that its values do not have.
//!
//! Contracts: `law_daemon_desks`, `law_start_things`, `law_begins`, `law_sources`, `law_same_values`, `law_known_values`.

mod laws;
mod value_laws;

pub use laws::{law_begins, law_daemon_desks, law_start_things};
pub use value_laws::{law_known_values, law_same_values, law_sources};
