//! Views of a finished run: the causal past of a printed value, the run in which migration is one step, and the first
//! location test of a source.
//!
//! The past is a run from the low start that prints just that value, and the least such set of places. The list in which each
//! migration is one step is a run of the calculus where it is. A run says one value for each of its Prints, in their order.
//! `past` keeps for each mark and each agent's place which event wrote it last, so the causes of an event, at most four, are
//! looked up when the event is made; then it goes back from the Print.
//!
//! Contracts: `first_test`, `one_step` (`IsStepped`), `past` (`IsPastRun`), `past_high` (`IsPastOf`), `causes_low`, `causes_high`
//! (`AreCauses`), `law_past`, `law_said_by_prints`, `law_one_step`.
#![tactic(auto)]

mod causes;
mod causing;
mod laws;
mod marking;
mod pasts;
mod stepping;
mod testing;
mod touching;
mod tracing;
mod turning;

pub use causes::{causes_high, causes_low};
pub use causing::Causes;
pub use laws::{law_one_step, law_past, law_said_by_prints};
pub use pasts::{past, past_high};
pub use stepping::one_step;
pub use testing::first_test;
