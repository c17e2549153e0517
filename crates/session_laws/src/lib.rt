//! Laws of sessions over legal histories: a session that fits stays fit through entries that are about others, what it asks is
//! never unknown, and what it is answered leads to one that fits.
#![tactic(auto)]

mod laws;

pub use laws::{
    answered_session_fits, answers_come_with_hands, asking_session_stays, asks_are_fit,
    asks_are_known, session_stays,
};
