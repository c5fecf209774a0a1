//! Commands that show messages, or tell of them: print, top, next, the view by pages, summary lines, sizes, `=`,
//! echo and help.
#![tactic(auto)]

mod paging;
mod printing;
mod telling;

pub use paging::{current_page, headers, page_of, page_size, scroll};
pub use printing::{print, print_following, top};
pub use telling::{echo, from, help, number, size};
