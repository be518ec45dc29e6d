//! The protocol header, the own Open, and frames as bytes.
ghost use Rattle.std.specs.Prelude.{◌≡◌, ◌<◌, None, IfOk, IfErr};
ghost use Rattle.amqp_session_frames.specs.Text.{FrameText};
ghost use Rattle.amqp_session_frames.specs.Cutting.{IsPiece};
ghost use Rattle.amqp_session_frames.specs.Steps.{frame_on};
ghost use Rattle.amqp_session_frames.specs.declared.frame.FrameBody.TheVariants as body;
ghost use Rattle.amqp_endpoint_model.specs.State.{fits, own_open, error_of};
ghost use Rattle.amqp_endpoint_model.specs.declared.error.EndpointError.TheVariants.{Memory};
ghost use Rattle.amqp_endpoint_core.specs.Reading.{NotTaken};

use amqp_endpoint_model::{EndpointError, Settings};
use amqp_session_frames::{Error as FrameError, Frame, FrameDecoder, FrameEncoder};
use amqp_session_performatives::Open;
use amqp_session_types::definitions;
use bytes::Bytes;
use serde_amqp_types::{Array, Symbol};
use std::alloc::Global;

/// The longest frame that any peer takes, whatever its Open will say (part 2, 2.4.1).
pub(crate) const MIN_MAX_FRAME_SIZE: u32 = 512;

/// How many bytes the size of a frame takes (part 2, 2.3.1).
pub(crate) const SIZE_FIELD: usize = 4;

/// The protocol header: AMQP, protocol id 0, version 1.0.0 (part 2, 2.2).
pub(crate) const PROTOCOL_HEADER: &[u8] = b"AMQP\x00\x01\x00\x00";

/// Whether any peer takes an Open: its frame has at most 512 bytes (part 2, 2.4.1).
#[tactic(auto, using(crate::proofs::CodingLaws::measured))]
pub(crate) fn goes_to_any(opening: &Open) -> bool
    ensures { result ≡ fits 512 (frame_on 0 (body.Open opening.now)) }
{
    FrameEncoder::new(MIN_MAX_FRAME_SIZE as usize - SIZE_FIELD).holds_open(opening)
}

/// What the own Open says (part 2, 2.7.1).
pub(crate) fn open_of(alloc: Global, settings: &Settings) -> Result<Open, EndpointError>
    ensures ok { IfOk result (λ opening. frame_on 0 (body.Open opening) ≡ own_open settings.now) }
    ensures err { IfErr result (λ e. e ≡ Memory) }
{
    Ok(Open {
        container_id: settings.container_id.try_clone(alloc)?,
        hostname: None,
        max_frame_size: settings.max_frame_size,
        channel_max: settings.channel_max,
        idle_time_out: settings.idle_time_out,
        outgoing_locales: Array::new(alloc),
        incoming_locales: Array::new(alloc),
        offered_capabilities: Array::new(alloc),
        desired_capabilities: Array::new(alloc),
        properties: None,
    })
}

/// An error that says this condition alone (part 2, 2.8.14).
pub(crate) fn error_of_condition(
    alloc: Global,
    condition: &str,
) -> Result<definitions::Error, EndpointError>
    ensures ok { IfOk result (λ e. e ≡ error_of condition.now) }
    ensures err { IfErr result (λ e. e ≡ Memory) }
{
    Ok(definitions::Error {
        condition: Symbol::new(String::from_str(alloc, condition)?),
        description: None,
        info: None,
    })
}

/// The frame that a whole piece is.
pub(crate) fn decoded(alloc: Global, piece: Bytes) -> Result<Frame, EndpointError>
    requires { IsPiece piece }
    ensures ok { IfOk result (λ f. FrameText piece f) }
    ensures err { IfErr result (λ e. NotTaken piece e) }
{
    match FrameDecoder::new().decode(alloc, piece) {
        Ok(frame) => Ok(frame),
        Err(FrameError::Memory) => Err(EndpointError::Memory),
        Err(error) => Err(EndpointError::Frame(error)),
    }
}
