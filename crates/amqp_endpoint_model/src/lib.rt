//! What an endpoint is to its callers: its settings and those of links (part 2, 2.6.3 and 2.7.3), calls, answers and
//! errors, and the laws of its histories.
#![tactic(auto)]

mod answer;
mod arrival;
mod call;
mod error;
mod event;
mod laws;
mod link;
mod phase;
mod relay;
mod settings;

pub use answer::{Answer, Attaching, Fed, Reply, Sent};
pub use arrival::Arrival;
pub use call::{Call, Disposal, Sending};
pub use error::EndpointError;
pub use event::{
    Attached, Begun, Closed, Detached, Ended, Event, LinkAsked, Message, Opened, Outcome, Refused,
    SessionAsked,
};
pub use laws::{
    bytes_decide, judge_says_one_limit, limit_kept, pieces_of_all_bytes, recut, step_decides, uncut,
};
pub use link::LinkSettings;
pub use phase::Phase;
pub use relay::SessionRelay;
pub use settings::Settings;
