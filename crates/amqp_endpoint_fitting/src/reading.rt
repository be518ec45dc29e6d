//! The numbers of frames are read, and so lie in the ranges of their fields. Each function here does nothing else: its
//! contract is what it reads.
ghost use Rattle.std.specs.Prelude.{All, IfSome, drop};
ghost use Rattle.amqp_endpoint_fitting.specs.Read.{IsRead, IsReadBegin, IsReadDisposition, IsReadFlow};
ghost use Rattle.amqp_endpoint_fitting.specs.Plain.{IsUint, MayBeUint};

use amqp_session_performatives::{
    Begin, Detach, Disposition, Flow, SessionFrame, SessionFrameBody, Transfer,
};
use amqp_session_types::Handle;
use std::collections::VecDeque;

/// The numbers of the frames from this index on are read (part 2, 2.7).
pub fn frames_are_read(frames: &VecDeque<SessionFrame>, from: usize)
    ensures { All IsRead (drop from frames.now.items) }
{
    for i in from..frames.len() {
        a_frame_is_read(&frames[i]);
    }
}

/// The numbers of a session's frame are read (part 2, 2.7).
pub fn a_frame_is_read(frame: &SessionFrame)
    ensures { IsRead frame.now }
{
    match &frame.body {
        SessionFrameBody::Begin(begin) => a_begin_is_read(begin),
        SessionFrameBody::Attach(_) => {}
        SessionFrameBody::Flow(flow) => a_flow_is_read(flow),
        SessionFrameBody::Transfer { performative, .. } => a_transfer_is_read(performative),
        SessionFrameBody::Disposition(disposition) => a_disposition_is_read(disposition),
        SessionFrameBody::Detach(detach) => a_detach_is_read(detach),
        SessionFrameBody::End(_) => {}
    }
}

/// The numbers of a Begin are read (part 2, 2.7.2).
pub fn a_begin_is_read(begin: &Begin)
    ensures { IsReadBegin begin.now }
{
    let _first = begin.next_outgoing_id;
    let _incoming = begin.incoming_window;
    let _outgoing = begin.outgoing_window;
    let _handles = begin.handle_max;
    if let Some(channel) = begin.remote_channel {
        let _channel = channel;
    }
}

/// The numbers of a Flow are read (part 2, 2.7.4).
pub fn a_flow_is_read(flow: &Flow)
    ensures { IsReadFlow flow.now }
{
    let _incoming = flow.incoming_window;
    let _number = flow.next_outgoing_id;
    let _outgoing = flow.outgoing_window;
    may_be_a_uint(&flow.next_incoming_id);
    may_be_a_uint(&flow.delivery_count);
    may_be_a_uint(&flow.link_credit);
    may_be_a_uint(&flow.available);
    may_be_a_handle(&flow.handle);
}

/// The number of a Transfer's delivery is read (part 2, 2.7.5).
fn a_transfer_is_read(transfer: &Transfer)
    ensures { MayBeUint transfer.now.delivery_id }
{
    may_be_a_uint(&transfer.delivery_id);
}

/// The numbers of a Disposition are read (part 2, 2.7.6).
fn a_disposition_is_read(disposition: &Disposition)
    ensures { IsReadDisposition disposition.now }
{
    let _first = disposition.first;
    may_be_a_uint(&disposition.last);
}

/// The handle of a Detach is read (part 2, 2.7.7).
fn a_detach_is_read(detach: &Detach)
    ensures { IsUint detach.now.handle.0 }
{
    a_handle_is_read(&detach.handle);
}

/// A handle that may be absent is read.
fn may_be_a_handle(handle: &Option<Handle>)
    ensures { IfSome handle.now (λ h. IsUint h.0) }
{
    if let Some(handle) = handle {
        a_handle_is_read(handle);
    }
}

/// The number of a handle is read.
fn a_handle_is_read(handle: &Handle)
    ensures { IsUint handle.now.0 }
{
    let _number = handle.0;
}

/// A number that may be absent is read.
fn may_be_a_uint(number: &Option<u32>)
    ensures { MayBeUint number.now }
{
    if let Some(number) = number {
        let _number = *number;
    }
}
