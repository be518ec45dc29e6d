//! A message as it is entered among those that are open (part 2, 2.6.12).
ghost use Rattle.std.specs.Prelude.{◌≡◌, None, IfOk};

use crate::open::Open;
use amqp_session_types::DeliveryTag;
use bytes::Bytes;
use std::alloc::AllocError;
use std::marker::Model;

/// A message that is ready to be entered without memory: it brings its tag twice. A clause sees the message.
#[derive(Debug, Drop)]
pub struct Entry {
    pub(crate) key: DeliveryTag,
    pub(crate) message: Open,
}

impl Model for Entry {
    ghost use Rattle.std.specs.Prelude.{◌≡◌};
    ghost use Rattle.amqp_link_unsettled.specs.declared.open.Open.{Open};

    ghost Value = { Open };

    ghost view = { λ e. e.message };

    ghost invariant = { λ e. e.message.tag ≡ e.key };
}

impl Entry {
    /// A message of which nothing was told yet. It is refused where there is no memory for it.
    pub fn new(tag: &DeliveryTag, payload: Bytes, message_format: u32) -> Result<Self, AllocError>
        ensures { IfOk result (λ e. e ≡ record
            { tag = tag.now; payload = payload; state = None; message_format = message_format }) }
    {
        let key = tag.clone()?;
        Ok(Entry {
            key,
            message: Open {
                tag: tag.clone()?,
                payload,
                state: None,
                message_format,
            },
        })
    }
}
