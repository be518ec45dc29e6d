//! The sessions of an endpoint and what is said in them: how they begin, what the peer says in them, and how they end
//! (part 2, 2.5); and what is known of what its calls hand out and leave waiting, whatever its links are: the frames
//! that they hand out fit the peer's limit where all that waits does (part 2, 2.4.1), the connection stands still, and
//! where no session goes on nothing is handed out.
#![tactic(auto)]

mod at_once;
mod beginning;
mod calling;
mod conversation;
mod ending;
mod faults;
mod hearing;
pub mod laws;
mod saying;
mod settled;

pub use beginning::{AcceptRefusal, BeginHeard, BeginRefusal};
pub use calling::{accept, begin, end, fail};
pub use conversation::Conversation;
pub use ending::EndHeard;
pub use hearing::{HearRefusal, Heard};
pub use saying::{hear, hear_begin, hear_end, tell_flow};
