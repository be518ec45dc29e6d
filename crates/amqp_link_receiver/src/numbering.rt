//! The numbers that the owner of a link gives the messages that it was handed.
ghost use Rattle.std.specs.Prelude.{◌≡◌, option_copied};
ghost use Rattle.amqp_link_receiver.specs.Numbering.{message_named, tag_of};

use crate::entry::{Entry, Note};
use amqp_link_unsettled::UnsettledMap;
use amqp_session_types::DeliveryTag;

/// The message with a tag bears this number from now on, where it is there whole.
pub(crate) fn name(unsettled: &mut UnsettledMap<Entry>, tag: &DeliveryTag, message: u64)
    ensures { unsettled.new.entries ≡ message_named unsettled.old.entries tag.now message }
{
    unsettled.note_where_kept(tag, Note::Named(message));
}

/// The tag of the first message that bears this number.
pub(crate) fn tag_of(unsettled: &UnsettledMap<Entry>, message: u64) -> Option<&DeliveryTag>
    ensures { option_copied result ≡ tag_of unsettled.now.entries message }
{
    unsettled.find(message)
}
