//! The links that a script attaches.
ghost use Rattle.std.specs.Prelude.{◌≡◌, IfOk};
ghost use Rattle.amqp_endpoint_scripts.specs.Terms.{plain_settings, plain_source, plain_target, receiver_settings};
ghost use Rattle.amqp_endpoint_scripts.specs.Terms.{receiving_mode, sender_settings, sending_mode};

use crate::statement::read_u32;
use amqp_endpoint_model::LinkSettings;
use amqp_session_states::{
    Source, Target, TargetArchetype, TerminusDurability, TerminusExpiryPolicy,
};
use amqp_session_types::{Boxed, ReceiverSettleMode, SenderSettleMode};
use serde_amqp_types::{Array, Text};
use std::alloc::{AllocError, Global};

/// A sending link of this name: where the count of its deliveries begins, and how its ends settle them.
pub fn read_sender_settings(
    alloc: Global,
    name: &str,
    count: &str,
    sending: &str,
    receiving: &str,
) -> Result<Option<Boxed<LinkSettings>>, AllocError>
    ensures { IfOk result (λ s. s ≡ sender_settings name.now count.now sending.now receiving.now) }
{
    let Some(count) = read_u32(count) else {
        return Ok(None);
    };
    let Some(sending) = read_sending_mode(sending) else {
        return Ok(None);
    };
    let Some(receiving) = read_receiving_mode(receiving) else {
        return Ok(None);
    };
    let settings = plain_settings(alloc, name, count, sending, receiving)?;
    Ok(Some(settings))
}

/// A receiving link of this name: how it settles its deliveries. The sender may settle each or not.
pub fn read_receiver_settings(
    alloc: Global,
    name: &str,
    receiving: &str,
) -> Result<Option<Boxed<LinkSettings>>, AllocError>
    ensures { IfOk result (λ s. s ≡ receiver_settings name.now receiving.now) }
{
    let Some(receiving) = read_receiving_mode(receiving) else {
        return Ok(None);
    };
    let settings = plain_settings(alloc, name, 0, SenderSettleMode::Mixed, receiving)?;
    Ok(Some(settings))
}

/// How a sender settles (part 2, 2.8.2).
fn read_sending_mode(word: &str) -> Option<SenderSettleMode>
    ensures { result ≡ sending_mode word.now }
{
    match word {
        "unsettled" => Some(SenderSettleMode::Unsettled),
        "settled" => Some(SenderSettleMode::Settled),
        "mixed" => Some(SenderSettleMode::Mixed),
        _ => None,
    }
}

/// How a receiver settles (part 2, 2.8.3).
fn read_receiving_mode(word: &str) -> Option<ReceiverSettleMode>
    ensures { result ≡ receiving_mode word.now }
{
    match word {
        "first" => Some(ReceiverSettleMode::First),
        "second" => Some(ReceiverSettleMode::Second),
        _ => None,
    }
}

/// A link without a maximum, whose source and target have no field set.
fn plain_settings(
    alloc: Global,
    name: &str,
    count: u32,
    sending: SenderSettleMode,
    receiving: ReceiverSettleMode,
) -> Result<Boxed<LinkSettings>, AllocError>
    ensures { IfOk result (λ s. s ≡ plain_settings name.now count sending receiving) }
{
    let name = Text::new(String::from_str(alloc, name)?);
    Boxed::new(
        alloc,
        LinkSettings {
            name,
            source: Some(plain_source(alloc)),
            target: Some(TargetArchetype::Target(plain_target(alloc))),
            snd_settle_mode: sending,
            rcv_settle_mode: receiving,
            initial_delivery_count: count,
            max_message_size: 0,
        },
    )
}

/// A source of which no field is set (part 3, 3.5.3).
fn plain_source(alloc: Global) -> Source
    ensures { result ≡ plain_source }
{
    Source {
        address: None,
        durable: TerminusDurability::None,
        expiry_policy: TerminusExpiryPolicy::SessionEnd,
        timeout: 0,
        dynamic: false,
        dynamic_node_properties: None,
        distribution_mode: None,
        filter: None,
        default_outcome: None,
        outcomes: Array::new(alloc),
        capabilities: Array::new(alloc),
    }
}

/// A target of which no field is set (part 3, 3.5.4).
fn plain_target(alloc: Global) -> Target
    ensures { result ≡ plain_target }
{
    Target {
        address: None,
        durable: TerminusDurability::None,
        expiry_policy: TerminusExpiryPolicy::SessionEnd,
        timeout: 0,
        dynamic: false,
        dynamic_node_properties: None,
        capabilities: Array::new(alloc),
    }
}
