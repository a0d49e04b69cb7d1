// The result card: three fields, of corners, counts and flags. It is written to the front of a buffer, and a card of
// either form is made one of the other.
#![tactic(auto)]

mod convert; // convert.rt: an older card made a newer one, and back
mod form; // form.rt: the two forms, and where their fields lie
mod write; // write.rt: a card written of an answer

pub use convert::{narrow_result_card, widen_result_card};
pub use form::{Form, RESULT_SIZE};
pub use write::put_result;
