//! Either end of a link (part 2, 2.6).
ghost use Rattle.std.specs.Borrow.{sem};
ghost use Rattle.std.specs.Prelude.{◌≡◌};
ghost use Rattle.amqp_link.specs.Ends.{base_of, flow_answer, flowed, state_of, with_handle};
ghost use Rattle.amqp_link.specs.Lends.{lends_end};
ghost use Rattle.amqp_link.specs.declared.end.End.TheVariants as variant;

use amqp_link_base::{LinkBase, LinkState};
use amqp_link_receiver::ReceiverLink;
use amqp_link_sender::SenderLink;
use amqp_session_performatives::LinkFlow;
use amqp_session_types::OutputHandle;
use std::marker::Model;

/// Either end of a link.
pub enum End {
    /// It sends.
    Sender(SenderLink),
    /// It receives.
    Receiver(ReceiverLink),
}

impl Drop for End {
    fn drop(self) {
        match self {
            End::Sender(_) => {}
            End::Receiver(_) => {}
        }
    }
}

/// An end of a link, as its session sees it. A clause sees which end it is.
#[derive(Drop)]
pub struct LinkEnd {
    pub(crate) end: End,
}

impl Model for LinkEnd {
    ghost use Rattle.amqp_link.specs.declared.end.End.{End};

    ghost Value = { End };

    ghost view = { λ l. l.end };
}

impl LinkEnd {
    /// The sending end of a link.
    pub fn new_sender(link: SenderLink) -> Self
        ensures { result ≡ variant.Sender link }
    {
        LinkEnd {
            end: End::Sender(link),
        }
    }

    /// The receiving end of a link.
    pub fn new_receiver(link: ReceiverLink) -> Self
        ensures { result ≡ variant.Receiver link }
    {
        LinkEnd {
            end: End::Receiver(link),
        }
    }

    /// The own handle is this from now on (part 2, 2.6.2).
    pub fn set_output_handle(&mut self, handle: OutputHandle)
        ensures { self.new ≡ with_handle self.old handle }
    {
        match &mut self.end {
            End::Sender(link) => link.set_output_handle(handle),
            End::Receiver(link) => link.set_output_handle(handle),
        }
    }

    /// Which end it is.
    pub fn end(&self) -> &End
        ensures { result.now ≡ self.now }
    {
        &self.end
    }

    /// Which end it is, to be changed by its owner.
    pub fn end_mut(&mut self) -> &mut End
        ensures* writes_back { sem 𝓛 (lends_end self.entry result) }
        ensures value { result.now ≡ self.old }
    {
        &mut self.end
    }

    /// The end, taken out.
    pub fn into_end(self) -> End
        ensures { result ≡ self }
    {
        let LinkEnd { end } = self;
        end
    }

    /// What both ends of a link keep of it.
    pub fn base(&self) -> &LinkBase
        ensures { result.now ≡ base_of self.now }
    {
        match &self.end {
            End::Sender(link) => link.base(),
            End::Receiver(link) => link.base(),
        }
    }

    /// Where the link stands between its Attach and its Detach frames (part 2, 2.6.3 to 2.6.6).
    pub fn local_state(&self) -> LinkState
        ensures { result ≡ state_of self.now }
    {
        self.base().local_state
    }

    /// Takes a Flow of the peer, and answers the one that is to be sent.
    pub(crate) fn take_flow(&mut self, flow: LinkFlow) -> Option<LinkFlow>
        ensures state { self.new ≡ flowed self.old flow }
        ensures answer { result ≡ flow_answer self.old flow }
    {
        match &mut self.end {
            End::Sender(link) => link.on_incoming_flow(flow),
            End::Receiver(link) => link.on_incoming_flow(flow),
        }
    }
}
