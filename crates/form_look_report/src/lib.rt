// The calls on a directory that ask for no page: form, and the length that it asks; look; report.
#![tactic(auto)]

mod forming;
mod looking;
mod reporting;

pub use forming::{form, words_for};
pub use looking::look;
pub use reporting::report;
