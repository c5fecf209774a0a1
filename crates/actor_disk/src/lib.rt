//! A disk that many actors share: how one of them sees it, what its events leave, who may begin on it, and what recovery by
//! all of them would leave.
#![tactic(auto)]

mod seeing;
mod settling;
mod starting;

pub use seeing::{Lists, fail, happen, happen_last, may_fail, seen_by};
pub use settling::settled_view;
pub use starting::{first_bad, first_taken};
