// The lists and the page index in the lent words, for the policies: the crates that it hands on are the only code that writes a link, a head, a tail, a bucket or a chain.
#![tactic(auto)]

pub use cells::{cell, set_mark, set_word6, word};
pub use entries::{enter, enter_seat, held, lowest_free_slot, remove};
pub use fresh::form_fresh;
pub use index::{Found, find};
pub use links::{back, move_to, size, to_front, write_pages};
pub use settings::{NONE, bucket_of};
