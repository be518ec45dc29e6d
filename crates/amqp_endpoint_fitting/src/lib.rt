//! What waits in a session fits the peer's limit, and so does what leaves it: laws over the steps of a session; laws
//! of lengths, by which frames of sessions fit the limit of every peer, whatever numbers they say, and which Attaches
//! fit that of one; and functions that read the numbers of frames (part 2, 2.4.1, 2.7.1, 2.7.3).
#![tactic(auto)]

mod attach_lengths;
pub mod laws;
mod length_laws;
mod reading;

pub use attach_lengths::an_attach_fits;
pub use length_laws::{
    a_begin_fits, a_condition_is_short, a_detach_fits, a_disposition_fits, a_flow_fits,
    a_larger_limit_fits_too, an_end_fits,
};
pub use reading::{a_begin_is_read, a_flow_is_read, a_frame_is_read, frames_are_read};
