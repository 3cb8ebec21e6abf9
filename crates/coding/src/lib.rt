// Numbers and samples in bytes, little-endian (METHOD.md, "Sample blocks"): read from them, and put
// into them.
#![tactic(auto)]

mod putting;
mod reading;
mod samples;

pub use putting::{put_number, put_samples, put_zeros};
pub use reading::Number;
pub use samples::decode;
