// The page on which lines wait for one write, what is said on standard error, and what the system's errors
// mean.
#![tactic(auto)]

mod errors;
mod page;
mod sending;
mod tries;
mod waiting;

pub use errors::{EINTR, SystemError};
pub use page::{Page, told, told_by};
pub use sending::sent;
pub use tries::Tries;
