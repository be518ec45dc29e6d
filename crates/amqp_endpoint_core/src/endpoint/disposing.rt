//! The calls that dispose of a message by an outcome.
ghost use Rattle.std.specs.Prelude.{◌≡◌, IfErr, OnOk};
ghost use Rattle.amqp_endpoint_core.specs.Disposing.{disposal_by};
ghost use Rattle.amqp_endpoint_model.specs.Said.{done};
ghost use Rattle.amqp_endpoint_model.specs.Step.{IsRefused, SessionsDo};
ghost use Rattle.amqp_endpoint_model.specs.declared.call.Call.{Call};

use super::Endpoint;
use amqp_endpoint_model::{Disposal, EndpointError, SessionRelay};
use amqp_session_states::{Accepted, DeliveryState, Modified, Rejected, Released};

impl<S: SessionRelay> Endpoint<S> {
    /// Accepts the message with this number, which came by the link with that number (part 3, 3.4.2): it is disposed of
    /// by that outcome, and settled as its transfers say, or else its link (part 2, 2.8.3).
    ///
    /// It is refused as `dispose` is. A refusal changes nothing.
    pub fn accept(&mut self, link: u64, message: u64) -> Result<(), EndpointError>
        ensures ok { OnOk result (SessionsDo S.does self.old
            (Call.Dispose link message (disposal_by (DeliveryState.Accepted (record {})))) done self.new) }
        ensures err { IfErr result (λ e. IsRefused S.does self.old
            (Call.Dispose link message (disposal_by (DeliveryState.Accepted (record {})))) e × (self.new ≡ self.old)) }
    {
        self.dispose_by(link, message, DeliveryState::Accepted(Accepted {}))
    }

    /// Releases the message with this number, which came by the link with that number (part 3, 3.4.4): its sender may
    /// send it again, here or elsewhere. It is settled as its transfers say, or else its link (part 2, 2.8.3).
    ///
    /// It is refused as `dispose` is. A refusal changes nothing.
    pub fn release(&mut self, link: u64, message: u64) -> Result<(), EndpointError>
        ensures ok { OnOk result (SessionsDo S.does self.old
            (Call.Dispose link message (disposal_by (DeliveryState.Released (record {})))) done self.new) }
        ensures err { IfErr result (λ e. IsRefused S.does self.old
            (Call.Dispose link message (disposal_by (DeliveryState.Released (record {})))) e × (self.new ≡ self.old)) }
    {
        self.dispose_by(link, message, DeliveryState::Released(Released {}))
    }

    /// Rejects the message with this number, which came by the link with that number (part 3, 3.4.3): it is invalid,
    /// and the error in `rejected` may say why. It is settled as its transfers say, or else its link (part 2, 2.8.3).
    ///
    /// It is refused as `dispose` is. A refusal changes nothing.
    pub fn reject(
        &mut self,
        link: u64,
        message: u64,
        rejected: Rejected,
    ) -> Result<(), EndpointError>
        ensures ok { OnOk result (SessionsDo S.does self.old
            (Call.Dispose link message (disposal_by (DeliveryState.Rejected rejected))) done self.new) }
        ensures err { IfErr result (λ e. IsRefused S.does self.old
            (Call.Dispose link message (disposal_by (DeliveryState.Rejected rejected))) e × (self.new ≡ self.old)) }
    {
        self.dispose_by(link, message, DeliveryState::Rejected(rejected))
    }

    /// Hands back the message with this number, which came by the link with that number, modified (part 3, 3.4.5):
    /// `modified` says whether the delivery failed, whether this link is not to be given the message again, and what is
    /// to be merged into its annotations. It is settled as its transfers say, or else its link (part 2, 2.8.3).
    ///
    /// It is refused as `dispose` is. A refusal changes nothing.
    pub fn modify(
        &mut self,
        link: u64,
        message: u64,
        modified: Modified,
    ) -> Result<(), EndpointError>
        ensures ok { OnOk result (SessionsDo S.does self.old
            (Call.Dispose link message (disposal_by (DeliveryState.Modified modified))) done self.new) }
        ensures err { IfErr result (λ e. IsRefused S.does self.old
            (Call.Dispose link message (disposal_by (DeliveryState.Modified modified))) e × (self.new ≡ self.old)) }
    {
        self.dispose_by(link, message, DeliveryState::Modified(modified))
    }

    fn dispose_by(
        &mut self,
        link: u64,
        message: u64,
        state: DeliveryState,
    ) -> Result<(), EndpointError>
        ensures ok { OnOk result (SessionsDo S.does self.old
            (Call.Dispose link message (disposal_by state)) done self.new) }
        ensures err { IfErr result (λ e. IsRefused S.does self.old
            (Call.Dispose link message (disposal_by state)) e × (self.new ≡ self.old)) }
    {
        let disposal = Disposal {
            state,
            settled: None,
        };
        self.dispose(link, message, &disposal)
    }
}
