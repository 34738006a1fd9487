// What the report program prints, as a function of the bytes that it reads.
#![tactic(auto)]

mod printing;
mod text;

pub use printing::{INPUT_LIMIT, report};
pub use text::Text;
