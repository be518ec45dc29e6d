//! What an endpoint's runs are, whatever its sessions do: one deed after the other, and what passes between it and its
//! peer by these (part 2, 2.2 to 2.5). The function here does nothing: its contract is the law.
ghost use Rattle.std.specs.Prelude.{[], List};
ghost use Rattle.amqp_endpoint_model.specs.History.{Run};
ghost use Rattle.amqp_endpoint_model.specs.Said.{Told};
ghost use Rattle.amqp_endpoint_model.specs.State.{State, fresh};
ghost use Rattle.amqp_endpoint_model.specs.declared.call.Call.{Call};
ghost use Rattle.amqp_endpoint_model.specs.declared.settings.Settings.{Settings};
ghost use Rattle.amqp_endpoint_laws.specs.Deeds.{IsDone, done_since, fed_since, pulled_since, told_since};
ghost use Rattle.amqp_endpoint_laws.specs.CallsDone.{calls_done, events_told};

use amqp_endpoint_model::SessionRelay;

/// A run of an endpoint is what is done in it: its sessions stand as these deeds leave them. The events that the run
/// tells are those that its deeds tell, and the calls that its sessions do, with their answers, are those that they do
/// in its deeds, each in order: in all, and since the latest connect. What they send fits the limit of written frames,
/// which is 512 bytes up to the peer's Open and then its max-frame-size; and that Open comes once (part 2, 2.4.1,
/// 2.7.1). Frames of the peer's are taken only as long as the connection is up, from where it begins anew up to where
/// it is over, and else the sessions queue none; it begins anew only where it isn't up; and as long as it isn't cut
/// off, what was done since the latest connect is done on one connection, which queues its header first and once, and
/// behind it frames, of which its own are its Open by these settings, empty frames, and a Close that fits every peer's
/// limit (part 2, 2.2, 2.4.1, 2.4.3).
///
/// As long as the connection isn't cut off, what pull gave since the latest connect, and then what is queued, is what
/// the deeds since then queue, in order; the frames that they take are what is read of the bytes fed since then; and
/// the own Close goes at most once, with the refusal of a frame where it hadn't gone (part 2, 2.2, 2.3, 2.4). So what
/// deeds keep each run keeps, and what is said of the frames, events and calls of deeds is said of the bytes, answers
/// and calls of a run.
pub fn runs_are_deeds<S: SessionRelay>()
    ensures { (sessions : S) (settings : Settings) (calls : List Call) (told : List Told) (end : State S) →
        Run S.does (fresh settings sessions) calls told end →
        IsDone S.does settings.max_frame_size sessions (pulled_since [] calls told) (fed_since [] calls told)
        (told_since [] calls told) (done_since [] calls told) (events_told told) (calls_done calls told) end }
{}
