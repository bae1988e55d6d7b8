//! When each answer of the program comes. Laws only.
//!
//! What follows from the contract of the top call where no write failed and memory was not wanting: which answer comes is
//! told by the words and by the bytes of the texts that they name. No other crate stands on it.
//!
//! Contracts: `law_completes`, `law_refuses_words`, `law_refuses_once`, `law_refuses_histories_once` and six more.
#![tactic(auto)]

mod laws;

pub use laws::{
    law_completes, law_counts_long, law_counts_long_histories, law_refuses_histories,
    law_refuses_histories_once, law_refuses_long, law_refuses_long_histories, law_refuses_once,
    law_refuses_sources, law_refuses_words,
};
pub use np_histories::LONGEST_HISTORY;
