// The calls on a directory of pages, over five policies, each a crate of its own.
#![tactic(auto)]

mod requests;

pub use form_look_report::{form, look, report, words_for};
pub use requests::{request, slot_for, step};
