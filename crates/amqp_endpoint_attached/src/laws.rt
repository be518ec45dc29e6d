//! Laws of what is sent for a link. A function here does nothing: its contract is the law.
ghost use Rattle.std.specs.Prelude.{◌≡◌, List, None, ℕ, Some};
ghost use Rattle.amqp_session_types.specs.declared.handles.OutputHandle.{OutputHandle};
ghost use Rattle.amqp_session_performatives.specs.declared.session_frame.SessionFrame.{SessionFrame};
ghost use Rattle.amqp_session_core.specs.declared.batch.BehindFrame.{BehindFrame};
ghost use Rattle.amqp_link_receiver.specs.State.{ReceiverState};
ghost use Rattle.amqp_link.specs.declared.end.End.{End};
ghost use Rattle.amqp_endpoint_links.specs.declared.numbered.Numbered.{Numbered};
ghost use Rattle.amqp_endpoint_attached.specs.Linked.{Linked};
ghost use Rattle.amqp_endpoint_attached.specs.Receiving.{shown_flow};
ghost use Rattle.amqp_endpoint_attached.specs.Sent.{IsAtMost, Says, Sends};
ghost use Rattle.amqp_session_performatives.specs.declared.attach.Attach.{Attach};
ghost use Rattle.amqp_session_performatives.specs.declared.link_flow.LinkFlow.{LinkFlow};
ghost use Rattle.amqp_link.specs.Ends.{flow_answer};
ghost use Rattle.amqp_link_unsettled.specs.Listing.{FitsFrame};
ghost use Rattle.amqp_endpoint_attached.specs.Links.{Announces};

/// What is handed out where a frame of a link is sent is this frame, or nothing.
pub fn what_is_sent_is_the_frame()
    ensures sends { (old new : Linked) (handle : OutputHandle) (before after : Numbered End) (frame : BehindFrame)
        (frames : List SessionFrame) → Sends old handle before after frame frames new → IsAtMost old frame frames }
    ensures says { (old new : Linked) (handle : OutputHandle) (frame : BehindFrame) (frames : List SessionFrame) →
        Says old handle frame frames new → IsAtMost old frame frames }
{}

/// The Flow that shows what a receiving link gives has no properties (part 2, 2.7.4).
pub fn a_shown_flow_has_no_properties()
    ensures { (handle : OutputHandle) (receiver : ReceiverState) →
        (shown_flow handle receiver).properties ≡ None }
{}

/// An own Attach that lists as many unsettled deliveries as a frame holds fits that frame.
pub fn an_own_attach_fits()
    ensures { (limit : ℕ) (link : End) (handle : OutputHandle) (attach : Attach) →
        Announces limit link handle attach → FitsFrame limit attach }
{}

/// A Flow with which a link replies has no properties.
pub fn a_reply_has_no_properties()
    ensures { (link : End) (flow reply : LinkFlow) → flow_answer link flow ≡ Some reply →
        reply.properties ≡ None }
{}
