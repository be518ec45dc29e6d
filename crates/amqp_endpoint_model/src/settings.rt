//! What an endpoint is made with.
ghost use Rattle.std.specs.Prelude.{◌≡◌};
ghost use Rattle.amqp_endpoint_model.specs.Defaults.{settings_of};

use serde_amqp_types::Text;

/// What an endpoint is made with. It keeps this for life.
#[derive(Debug, Drop)]
pub struct Settings {
    /// The container-id of the own Open (part 2, 2.7.1).
    pub container_id: Text,
    /// The max-frame-size of the own Open, in bytes, at least 512: a larger frame of the peer is refused.
    pub max_frame_size: u32,
    /// The channel-max of the own Open.
    pub channel_max: u16,
    /// The incoming-window of each session, in transfers, 1 to 2,147,483,647 (part 2, 2.5.6).
    pub incoming_window: u32,
    /// The idle-time-out of the own Open, in milliseconds. It is carried, and no timer runs.
    pub idle_time_out: Option<u32>,
    /// The transfer number that each session begins with.
    pub first_transfer_number: u32,
}

impl Settings {
    /// An endpoint with this container-id: the standard's defaults, which bound neither frames nor channels and have no
    /// time-out (part 2, 2.7.1), windows of 2,048 transfers, for which the standard has no default, and transfers that
    /// are numbered from 0. A program that bounds what is kept of an unfinished frame sets `max_frame_size`.
    pub fn new(container_id: Text) -> Self
        ensures { result ≡ settings_of container_id }
    {
        Settings {
            container_id,
            max_frame_size: u32::MAX,
            channel_max: u16::MAX,
            incoming_window: 2048,
            idle_time_out: None,
            first_transfer_number: 0,
        }
    }
}
