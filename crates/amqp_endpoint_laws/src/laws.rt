//! The laws. A function here does nothing but name the laws that it rests on: its contract is the law.
ghost use Rattle.std.specs.Prelude.{◌≡◌, ◌+◌, ◌∷◌, ◌++◌, [], ℕ, List, false, length, map, slice_get, Option, Some, ◌⊎◌};
ghost use Rattle.std.specs.Prelude.{true};
ghost use Rattle.std.specs.FinMap as tables;
ghost use Rattle.amqp_session_performatives.specs.declared.session_frame.SessionFrame.{SessionFrame};
ghost use Rattle.amqp_session_frames.specs.declared.frame.Frame.{Frame};
ghost use Rattle.amqp_session_frames.specs.declared.frame.FrameBody.{FrameBody};
ghost use Rattle.amqp_session_frames.specs.declared.frame.FrameBody.TheVariants as body;
ghost use Rattle.amqp_session_performatives.specs.declared.transfer.Transfer.{Transfer};
ghost use Rattle.amqp_session_types.specs.declared.channels.OutgoingChannel.{OutgoingChannel};
ghost use Rattle.amqp_session_types.specs.declared.handles.OutputHandle.{OutputHandle};
ghost use Rattle.amqp_link_base.specs.Readings.{Piece, nothing, readings};
ghost use Rattle.amqp_link_base.specs.Said.{Said};
ghost use Rattle.amqp_link_receiver.specs.Deliveries.{Delivery as Incoming};
ghost use Rattle.amqp_link_receiver.specs.Readings.{held_said};
ghost use Rattle.amqp_endpoint_tables.specs.LinkState.{AreApart, place_at};
ghost use Rattle.amqp_endpoint_tables.specs.declared.link_place.LinkPlace.TheVariants.{Held};
ghost use Rattle.amqp_endpoint_linking.specs.Linking.{Session};
ghost use Rattle.amqp_endpoint_links.specs.declared.links.AskedLink.{AskedLink};
ghost use Rattle.amqp_endpoint_tables.specs.State.{channel_at, live_at, place_at as session_place};
ghost use Rattle.amqp_endpoint_model.specs.History.{Run};
ghost use Rattle.amqp_endpoint_model.specs.Relay.{IsNew};
ghost use Rattle.amqp_endpoint_model.specs.Said.{Said as Answer, Told, attaching};
ghost use Rattle.amqp_endpoint_model.specs.State.{State, frame_of, fresh, is_unconnected};
ghost use Rattle.amqp_endpoint_model.specs.declared.call.Call.{Call};
ghost use Rattle.amqp_endpoint_model.specs.declared.call.Call.TheVariants.{AttachReceiver};
ghost use Rattle.amqp_endpoint_model.specs.declared.error.EndpointError.{EndpointError};
ghost use Rattle.amqp_endpoint_model.specs.declared.event.Event.{Event};
ghost use Rattle.amqp_endpoint_model.specs.declared.settings.Settings.{Settings};
ghost use Rattle.amqp_endpoint.specs.Does.{linked};
ghost use Rattle.amqp_endpoint.specs.Sending.{tag_of};
ghost use Rattle.amqp_endpoint.specs.declared.linked.LinkedSessions.{LinkedSessions};
ghost use Rattle.amqp_endpoint_laws.specs.Deeds.{AreDone, Deed, Does, IsDeed, IsDone, MayPass, NoneRenews, Renews};
ghost use Rattle.amqp_endpoint_laws.specs.Deeds.{Throughout, done_since, fed_since, pulled_since, told_by, told_in};
ghost use Rattle.amqp_endpoint_laws.specs.Deeds.{told_since, up_behind};
ghost use Rattle.amqp_endpoint_laws.specs.CallsDone.{calls_done, events_told};
ghost use Rattle.amqp_endpoint_model.specs.declared.link.LinkSettings.{LinkSettings};
ghost use Rattle.amqp_endpoint_conversation.specs.Windows.{KeepsWindow, Passing, begins_with};
ghost use Rattle.amqp_endpoint_laws.specs.Channel.{AllAnswer, comings, goings};
ghost use Rattle.amqp_endpoint_laws.specs.Reading.{Wired, nothing_read};
ghost use Rattle.amqp_endpoint_laws.specs.Attachments.{attached_in, attachment, bodies_of, gone_in, names_in, uses};
ghost use Rattle.amqp_endpoint_laws.specs.Conversing.{SessionsGoOn};
ghost use Rattle.amqp_endpoint_laws.specs.Handed.{IsReceiving, NoneResumes, PassesOn, ReachIn, handed_as};
ghost use Rattle.amqp_endpoint_laws.specs.Handed.{Handed, handed_by, leads_there, pieces_on};
ghost use Rattle.amqp_endpoint_laws.specs.Held.{IsHeldThere, number_at};
ghost use Rattle.amqp_endpoint_laws.specs.Judged.{Judged};
ghost use Rattle.amqp_endpoint_laws.specs.Linking.{HaveCome};
ghost use Rattle.amqp_endpoint_laws.specs.Paired.{BeginsOn, BegunOn};
ghost use Rattle.amqp_endpoint_laws.specs.Passed.{HasCome, PassesIn, came_in, sent_in};
ghost use Rattle.amqp_endpoint_laws.specs.Queued.{AreSaid, AttachesFirst, Message, NothingOn, SayAll, SaysSince};
ghost use Rattle.amqp_endpoint_laws.specs.Queued.{messages_by, messages_done};
ghost use Rattle.amqp_endpoint_laws.specs.Queued.{pieces_waiting, queued};
ghost use Rattle.amqp_endpoint_laws.specs.Opening.{Opens, OpensBy, OpensSending, those_behind};
ghost use Rattle.amqp_endpoint_laws.specs.Resumed.{NeverCalledAgain, NeverResumed};
ghost use Rattle.amqp_endpoint_laws.specs.Seen.{AreOnes, passing_in, wired_by};
ghost use Rattle.amqp_endpoint_laws.specs.Life.{Reach, StaysSomewhere};
ghost use Rattle.amqp_endpoint_laws.specs.Taken.{CameLast, HandsOut, asked_in, message_handed};
ghost use Rattle.amqp_endpoint_laws.specs.Telling.{numbers_told, numbers_under, tags_given};

use amqp_endpoint_linking::laws::links_given_back_go_on;

/// The links of an endpoint have a history of their own in each of its runs, from none on, by steps of
/// amqp_endpoint_tables. So what holds of all histories of links holds in each run.
pub fn links_have_a_history()
    ensures { (sessions : LinkedSessions) (settings : Settings) (calls : List Call) (told : List Told)
        (end : State LinkedSessions) → IsNew linked settings sessions →
        Run linked (fresh settings sessions) calls told end → HaveCome end.sessions.links }
{
    links_given_back_go_on();
}

/// No two links of an endpoint that aren't closed have one name, whatever calls it gets and whatever its peer says
/// (part 2, 2.6.1).
pub fn live_names_are_apart()
    ensures { (sessions : LinkedSessions) (settings : Settings) (calls : List Call) (told : List Told)
        (end : State LinkedSessions) → IsNew linked settings sessions →
        Run linked (fresh settings sessions) calls told end → AreApart end.sessions.links.links }
{
    links_have_a_history();
}

/// The tags that an endpoint gives messages which it accepts to be sent are those of the numbers 0, 1, 2 and so on, in
/// this order: of all under the count of them. So each message has the tag of its own number (part 2, 2.8.7).
pub fn tags_are_serials()
    ensures { (sessions : LinkedSessions) (settings : Settings) (calls : List Call) (told : List Told)
        (end : State LinkedSessions) → IsNew linked settings sessions →
        Run linked (fresh settings sessions) calls told end →
        tags_given told ≡ map tag_of (numbers_under end.sessions.sent) }
{}

/// No two messages that an endpoint accepts to be sent have one tag, by whichever links they go and however often these
/// and their sessions end and begin (part 2, 2.6.12, 2.8.7).
pub fn tags_are_apart()
    ensures { (sessions : LinkedSessions) (settings : Settings) (calls : List Call) (told : List Told)
        (end : State LinkedSessions) → IsNew linked settings sessions →
        Run linked (fresh settings sessions) calls told end →
        (m n : ℕ) (tag : List ℕ) →
        slice_get (tags_given told) m ≡ Some tag → slice_get (tags_given told) n ≡ Some tag → m ≡ n }
{}

/// The messages that an endpoint hands out have the numbers 0, 1, 2 and so on, in the order in which it tells of them:
/// all under the count of them.
pub fn numbers_of_messages_are_serials()
    ensures { (sessions : LinkedSessions) (settings : Settings) (calls : List Call) (told : List Told)
        (end : State LinkedSessions) → IsNew linked settings sessions →
        Run linked (fresh settings sessions) calls told end →
        numbers_told (events_told told) ≡ numbers_under end.sessions.given }
{}

/// No two messages that an endpoint hands out have one number.
pub fn numbers_of_messages_are_apart()
    ensures { (sessions : LinkedSessions) (settings : Settings) (calls : List Call) (told : List Told)
        (end : State LinkedSessions) → IsNew linked settings sessions →
        Run linked (fresh settings sessions) calls told end →
        (m n number : ℕ) → slice_get (numbers_told (events_told told)) m ≡ Some number →
        slice_get (numbers_told (events_told told)) n ≡ Some number → m ≡ n }
{
    numbers_of_messages_are_serials();
}

/// The sessions of an endpoint have a history of their own in each of its runs, by steps of amqp_endpoint_tables,
/// from whichever sessions on. So what holds of all histories of sessions holds in each run: a number is given once, no
/// step but its own touches a session, and one that is over stays over (part 2, 2.5).
pub fn sessions_have_a_history()
    ensures { (old end : State LinkedSessions) (calls : List Call) (told : List Told) →
        Run linked old calls told end → SessionsGoOn old.sessions.talk.sessions end.sessions.talk.sessions }
{}

/// No two sessions of an endpoint that have an outgoing channel have one, whatever calls it gets and whatever its peer
/// says, and also once it has connected again (part 2, 2.5.1, 2.5.2).
pub fn channels_are_apart()
    ensures { (sessions : LinkedSessions) (settings : Settings) (calls : List Call) (told : List Told)
        (end : State LinkedSessions) → IsNew linked settings sessions →
        Run linked (fresh settings sessions) calls told end →
        (m n : ℕ) (channel : OutgoingChannel) → channel_at end.sessions.talk.sessions m ≡ Some channel →
        channel_at end.sessions.talk.sessions n ≡ Some channel → m ≡ n }
{}

/// Each transfer that an endpoint queues lies in the window that the peer gave its session: its number, counted from
/// the session's first transfer on, is less than so many ahead of the window's first, on a circle of 2^32, as the
/// latest Begin or Flow that the session took says (part 2, 2.5.6). This is so of all that passes in each session,
/// whichever deeds the endpoint's run consists of.
pub fn transfers_stay_in_the_window()
    ensures kept { (sessions end : LinkedSessions) (settings : Settings) (deeds : List Deed) (number : ℕ)
        (passings : List Passing) → IsNew linked settings sessions →
        PassesIn number sessions deeds end passings →
        KeepsWindow (begins_with settings.first_transfer_number) passings }
    ensures some { (old new : LinkedSessions) (deeds : List Deed) (number : ℕ) → AreDone linked old deeds new →
        (passings : List Passing) × PassesIn number old deeds new passings }
{}

/// A session that goes on came about by steps of its own since it was new, whatever its endpoint did, and what its
/// links said in it, in their transfers, Flows and Detaches, is what these steps handed out of it, in order. So what
/// `amqp_session_core::laws` and `amqp_session_outgoing::laws` say of all histories of a session holds of what an
/// endpoint sends: within an attachment each link's transfers, Flows and Detaches are queued in the order in which the
/// link made them, links have turns, and each transfer and each delivery has its number (part 2, 2.5.6, 2.6.12).
pub fn sessions_come_about_by_their_own_steps()
    ensures { (sessions end : LinkedSessions) (settings : Settings) (deeds : List Deed) (number : ℕ)
        (passings : List Passing) (session : Session) → IsNew linked settings sessions →
        PassesIn number sessions deeds end passings → live_at end.talk.sessions number ≡ Some session →
        HasCome settings.first_transfer_number passings session.value.session }
{}

/// Where an endpoint's table of links says that a session holds a link, the link stands: that session goes on, and the
/// link that has the own handle there bears this number (part 2, 2.6.2). This is so whichever deeds an endpoint's run
/// consists of, and behind each run.
pub fn held_links_stand_in_their_sessions()
    ensures by_deeds { (sessions end : LinkedSessions) (settings : Settings) (deeds : List Deed) (link session : ℕ)
        (handle : OutputHandle) → IsNew linked settings sessions → AreDone linked sessions deeds end →
        place_at end.links link ≡ Some (Held session handle) →
        number_at end.talk.sessions session handle.0 ≡ Some link }
    ensures by_calls { (sessions : LinkedSessions) (settings : Settings) (calls : List Call) (told : List Told)
        (end : State LinkedSessions) (link session : ℕ) (handle : OutputHandle) → IsNew linked settings sessions →
        Run linked (fresh settings sessions) calls told end →
        place_at end.sessions.links link ≡ Some (Held session handle) →
        number_at end.sessions.talk.sessions session handle.0 ≡ Some link }
{}

/// No two links are held by one session under one own handle (part 2, 2.6.2).
pub fn no_two_links_share_a_handle()
    ensures by_deeds { (sessions end : LinkedSessions) (settings : Settings) (deeds : List Deed) (m n session : ℕ)
        (handle : OutputHandle) → IsNew linked settings sessions → AreDone linked sessions deeds end →
        place_at end.links m ≡ Some (Held session handle) → place_at end.links n ≡ Some (Held session handle) → m ≡ n }
    ensures by_calls { (sessions : LinkedSessions) (settings : Settings) (calls : List Call) (told : List Told)
        (end : State LinkedSessions) (m n session : ℕ) (handle : OutputHandle) → IsNew linked settings sessions →
        Run linked (fresh settings sessions) calls told end →
        place_at end.sessions.links m ≡ Some (Held session handle) →
        place_at end.sessions.links n ≡ Some (Held session handle) → m ≡ n }
{}

/// A link that stands in a session that goes on is held there: the endpoint's table says so by its number; or the link
/// is closed, by either end (part 2, 2.6.2, 2.6.6).
pub fn links_of_sessions_are_held()
    ensures by_deeds { (sessions end : LinkedSessions) (settings : Settings) (deeds : List Deed)
        (link session handle : ℕ) → IsNew linked settings sessions → AreDone linked sessions deeds end →
        number_at end.talk.sessions session handle ≡ Some link → IsHeldThere end.links link session handle }
    ensures by_calls { (sessions : LinkedSessions) (settings : Settings) (calls : List Call) (told : List Told)
        (end : State LinkedSessions) (link session handle : ℕ) → IsNew linked settings sessions →
        Run linked (fresh settings sessions) calls told end →
        number_at end.sessions.talk.sessions session handle ≡ Some link →
        IsHeldThere end.sessions.links link session handle }
{}

/// As long as a receiving link stays attached, the messages that its endpoint hands out by it are those that the
/// transfers say which reach the link, in order, and what it holds of a message then is what these leave open (part 2,
/// 2.6.14): so it is from whichever moment on, and whichever deeds the endpoint's run consists of, where none of the
/// transfers says that it resumes a delivery. They are those that come in its session on the handle of the peer's that
/// leads to the link.
pub fn what_is_handed_out_is_what_was_said()
    ensures as_said { (sessions start end : LinkedSessions) (settings : Settings) (before since : List Deed)
        (link session : ℕ) (own : OutputHandle) (held : Option Said) (pieces : List Piece) →
        IsNew linked settings sessions → AreDone linked sessions before start →
        IsReceiving start link session own (held_said held) →
        ReachIn link session own start since end pieces → NoneResumes pieces →
        let read = readings (record nothing { held = held }) pieces in
        (handed_by link (told_by since) ≡ map (handed_as own) read.messages)
        × IsReceiving end link session own (held_said read.held) }
    ensures on_a_handle { (sessions start end : LinkedSessions) (settings : Settings) (before since : List Deed)
        (link session : ℕ) (own : OutputHandle) (held : Option Incoming) (theirs : ℕ) (passings : List Passing) →
        IsNew linked settings sessions → AreDone linked sessions before start →
        IsReceiving start link session own held → PassesOn link session own theirs start since end passings →
        ReachIn link session own start since end (pieces_on theirs passings) }
{
    links_given_back_go_on();
}

/// One handle of the peer's leads to a receiving link that is attached, whichever deeds an endpoint's run consists of.
/// No two do so then, nor behind each run (part 2, 2.6.2, 2.6.3). And by a deed by which the link stays attached the
/// handle leads there still: so it is one and the same as long as the link is attached.
pub fn one_handle_leads_to_an_attached_link()
    ensures by_deeds { (sessions end : LinkedSessions) (settings : Settings) (deeds : List Deed) (link session : ℕ)
        (own : OutputHandle) (held : Option Incoming) (m n : ℕ) → IsNew linked settings sessions →
        AreDone linked sessions deeds end → IsReceiving end link session own held →
        leads_there (live_at end.talk.sessions session) m own ≡ true →
        leads_there (live_at end.talk.sessions session) n own ≡ true → m ≡ n }
    ensures by_calls { (sessions : LinkedSessions) (settings : Settings) (calls : List Call) (told : List Told)
        (end : State LinkedSessions) (link session : ℕ) (own : OutputHandle) (held : Option Incoming) (m n : ℕ) →
        IsNew linked settings sessions → Run linked (fresh settings sessions) calls told end →
        IsReceiving end.sessions link session own held →
        leads_there (live_at end.sessions.talk.sessions session) m own ≡ true →
        leads_there (live_at end.sessions.talk.sessions session) n own ≡ true → m ≡ n }
    ensures some { (sessions end : LinkedSessions) (settings : Settings) (deeds : List Deed) (link session : ℕ)
        (own : OutputHandle) (held : Option Incoming) → IsNew linked settings sessions →
        AreDone linked sessions deeds end → IsReceiving end link session own held →
        (theirs : ℕ) × (leads_there (live_at end.talk.sessions session) theirs own ≡ true) }
    ensures stays { (old new : LinkedSessions) (deed : Deed) (link session : ℕ) (own : OutputHandle)
        (held later : Option Incoming) (theirs : ℕ) → IsDeed linked old deed new →
        IsReceiving old link session own held → IsReceiving new link session own later →
        leads_there (live_at old.talk.sessions session) theirs own ≡ true →
        leads_there (live_at new.talk.sessions session) theirs own ≡ true }
{}

/// An endpoint hands a message out by a link only in a deed before and behind which the link is attached as a receiving
/// one, in one session and under one own handle. So the deed that ends an attachment hands out none of its link, nor do
/// those before and behind the attachment (part 2, 2.6.3, 2.6.4, 2.6.12).
pub fn messages_come_while_attached()
    ensures { (old new : LinkedSessions) (deed : Deed) (link : ℕ) → IsDeed linked old deed new →
        (handed_by link (told_in deed) ≡ []) ⊎ StaysSomewhere old new link }
{}

/// All that an endpoint ever hands out by a link that never attaches again is what the transfers say that reach the
/// link while it is attached, in order, from nothing on, where none of them says that it resumes a delivery. So what
/// the link holds of a message as its attachment ends is never handed out (part 2, 2.6.12, 2.6.14). There are such
/// transfers: by whichever deeds such a link stays attached, it is so in one session alone, and under one own handle
/// alone. And each run consists of deeds that tell its events.
pub fn all_that_is_handed_out()
    ensures says { (sessions end : LinkedSessions) (settings : Settings) (deeds : List Deed) (link session : ℕ)
        (own : OutputHandle) (pieces : List Piece) → IsNew linked settings sessions →
        NeverResumed link deeds → Reach link session own sessions deeds end pieces → NoneResumes pieces →
        handed_by link (told_by deeds) ≡ map (handed_as own) (readings nothing pieces).messages }
    ensures some { (sessions end : LinkedSessions) (settings : Settings) (deeds : List Deed) (link : ℕ) →
        IsNew linked settings sessions → NeverResumed link deeds → AreDone linked sessions deeds end →
        (session : ℕ) × (own : OutputHandle) × (pieces : List Piece) ×
        Reach link session own sessions deeds end pieces }
    ensures by_calls { (sessions : LinkedSessions) (settings : Settings) (calls : List Call) (told : List Told)
        (end : State LinkedSessions) (link : ℕ) → IsNew linked settings sessions →
        Run linked (fresh settings sessions) calls told end → NeverCalledAgain link (calls_done calls told) →
        (did : IsDone linked settings.max_frame_size sessions (pulled_since [] calls told) (fed_since [] calls told)
        (told_since [] calls told) (done_since [] calls told) (events_told told) (calls_done calls told) end) ×
        (session : ℕ) × (own : OutputHandle) × (pieces : List Piece) ×
        Reach link session own sessions (did.before ++ did.since) end.sessions pieces ×
        (NoneResumes pieces →
        handed_by link (events_told told) ≡ map (handed_as own) (readings nothing pieces).messages) }
{
    links_given_back_go_on();
}

/// What a link is given to send is queued in order. Its Attach is the first frame of the call by which it attaches, as
/// a new link or again, and says its own handle and its name. The transfers with that handle among all that passes in
/// its session by that call and since then, and behind them those that wait there for the peer's window, say what the
/// link says by that call and since then: as it attaches again by answering the peer, the first so many of those that
/// what was kept of a Flow lets it send on; the messages that it accepts; and, as a Flow comes, the first so many of
/// those that it has to send on; one after the other, each with its tag, its format, whether it goes settled, and all
/// of its bytes, or those behind the place where its receiver stands; and no message is left half said (part 2, 2.6.3,
/// 2.6.7, 2.6.12 to 2.6.14). So it is whatever else the endpoint does and hears, as long as the session holds the link
/// and goes on, and the link doesn't attach again. Where it has nothing to send on these are the messages that it
/// accepted; in a run, all that it is given by calls that are done behind that call.
pub fn what_is_sent_is_queued_in_order()
    ensures says { (sessions old end : LinkedSessions) (settings : Settings) (before since : List Deed)
        (deed : Deed) (number link : ℕ) (passings : List Passing) (handle : OutputHandle) (session : Session) →
        IsNew linked settings sessions → AreDone linked sessions before old →
        Opens deed number link → PassesIn number old (deed ∷ since) end passings →
        place_at end.links link ≡ Some (Held number handle) → NeverResumed link since →
        live_at end.talk.sessions number ≡ Some session →
        SayAll link old (deed ∷ since) end (queued handle passings session.value.session) }
    ensures given { (link : ℕ) (old end : LinkedSessions) (deeds : List Deed) (messages : List Message)
        (said : AreSaid link old deeds end messages) → NothingOn link old deeds end messages said →
        messages ≡ messages_by link deeds }
    ensures attaches { (sessions old new end : LinkedSessions) (settings : Settings) (before since : List Deed)
        (deed : Deed) (number link : ℕ) (passings : List Passing) (handle : OutputHandle) (name : List ℕ) →
        IsNew linked settings sessions → AreDone linked sessions before old → IsDeed linked old deed new →
        Opens deed number link → PassesIn number new since end passings →
        place_at end.links link ≡ Some (Held number handle) → NeverResumed link since →
        attached_in old deed ≡ name ∷ [] → AttachesFirst handle name (gone_in deed) }
    ensures by_calls { (sessions : LinkedSessions) (settings : Settings) (calls : List Call) (told : List Told)
        (end : State LinkedSessions) (link n number : ℕ) (it : Call) (answer : Answer) (handle : OutputHandle)
        (session : Session) → IsNew linked settings sessions → Run linked (fresh settings sessions) calls told end →
        slice_get (calls_done calls told) n ≡ Some (it, answer) → OpensBy it answer number link →
        NeverCalledAgain link (those_behind n (calls_done calls told)) →
        place_at end.sessions.links link ≡ Some (Held number handle) →
        live_at end.sessions.talk.sessions number ≡ Some session →
        (did : IsDone linked settings.max_frame_size sessions (pulled_since [] calls told) (fed_since [] calls told)
        (told_since [] calls told) (done_since [] calls told) (events_told told) (calls_done calls told) end) ×
        SaysSince sessions (did.before ++ did.since) number link it answer handle end.sessions session
        (messages_done link (those_behind n (calls_done calls told))) }
{
    links_given_back_go_on();
    no_two_links_share_a_handle();
    held_links_stand_in_their_sessions();
}

/// Each link that attaches says so once: by each call that has a link attach one Attach is handed out, which is the
/// first frame of the call and says the link's name; and no Attach is handed out by anything else that an endpoint does
/// or hears (part 2, 2.6.3).
pub fn attaches_are_calls()
    ensures named { (old new : LinkedSessions) (deed : Deed) → IsDeed linked old deed new →
        names_in (gone_in deed) ≡ attached_in old deed }
    ensures goes_first { (old new : LinkedSessions) (deed : Deed) (name : List ℕ) → IsDeed linked old deed new →
        attached_in old deed ≡ name ∷ [] → (handle : OutputHandle) × AttachesFirst handle name (gone_in deed) }
{}

/// What a sending link is given to send is read off the frames of its session, by the link's name and a count: how
/// often a sending end attached with this name in the session before the link did, as a new one or again. The transfers
/// of the attachment with this name and this count, among all frames that were handed out in the session since it was
/// new, as they come to the peer, and behind them those that wait there, say what the link says by the call by which it
/// attaches and since then: as it attaches again by answering the peer, the first so many of those that what was kept
/// of a Flow lets it send on; the messages that it accepts; and, as a Flow comes, the first so many of those that it
/// has to send on; in order, each message whole, or from where its receiver stands (part 2, 2.6.2, 2.6.3, 2.6.7, 2.6.12
/// to 2.6.14). So it is whatever else the endpoint does and hears, as long as the session holds the link and goes on,
/// and the link doesn't attach again.
pub fn what_an_attachment_sends_is_what_it_accepted()
    ensures { (sessions old new end : LinkedSessions) (settings : Settings) (before since : List Deed)
        (deed : Deed) (number link : ℕ) (name : List ℕ) (first passings : List Passing) (handle : OutputHandle)
        (session : Session) → IsNew linked settings sessions → PassesIn number sessions before old first →
        IsDeed linked old deed new → OpensSending old deed number link name →
        PassesIn number new since end passings → place_at end.links link ≡ Some (Held number handle) →
        NeverResumed link since → live_at end.talk.sessions number ≡ Some session →
        let read = attachment name (uses name (bodies_of (sent_in first)))
        (bodies_of (sent_in first ++ gone_in deed ++ sent_in passings)) in
        SayAll link old (deed ∷ since) end (read ++ pieces_waiting handle.0 session.value.session) }
{
    links_given_back_go_on();
    no_two_links_share_a_handle();
    held_links_stand_in_their_sessions();
}

/// Each link that the peer asks for in a session is asked for by an Attach that came in the session, on the handle that
/// it says. By that handle no other Attach came since, and no transfer (part 2, 2.6.2, 2.6.3). So it is whichever deeds
/// the endpoint's run consists of, in a session that is itself only asked for too.
pub fn links_are_asked_for_by_an_attach()
    ensures { (sessions end : LinkedSessions) (settings : Settings) (deeds : List Deed) (number theirs : ℕ)
        (passings : List Passing) (link : AskedLink) → IsNew linked settings sessions →
        PassesIn number sessions deeds end passings →
        tables.get (asked_in (session_place end.talk.sessions number)) theirs ≡ Some link →
        CameLast theirs link.attach (came_in passings) }
{}

/// What a receiving link hands out is read off the frames that come in its session, by the link's name and a count: how
/// often a sending end attached there with this name before the Attach by which the link is attached. That is the last
/// one on the handle of the peer's that leads to the link, whether it came before the link's own or behind. What the
/// link hands out since the call by which it attaches is what the transfers of the attachment with this name and this
/// count say, where none of them resumes a delivery (part 2, 2.6.2, 2.6.3, 2.6.12, 2.6.14). So it is whatever else the
/// endpoint does and hears, as long as the link is attached, and never attaches again.
pub fn what_an_attachment_hands_out_is_what_it_took()
    ensures { (sessions old new end : LinkedSessions) (settings : Settings) (before since : List Deed)
        (number link limit : ℕ) (its : LinkSettings) (events : List Event) (frames : List SessionFrame)
        (first passings : List Passing) (own : OutputHandle) (held : Option Incoming) → IsNew linked settings sessions →
        PassesIn number sessions before old first →
        IsDeed linked old (Does limit (AttachReceiver number its) (attaching link events) frames) new →
        PassesIn number new since end passings → IsReceiving end link number own held → NeverResumed link since →
        HandsOut end number own its.name (came_in first ++ came_in passings) (handed_by link (told_by since)) }
{
    links_given_back_go_on();
}

/// Of a beginning of the frames that come in a session a beginning of the messages of an attachment is read (part 2,
/// 2.6.3, 2.6.14).
pub fn a_beginning_is_read_as_a_beginning()
    ensures { (name : List ℕ) (others : ℕ) (first later : List FrameBody) → (rest : List Said) ×
        ((readings nothing (attachment name others (first ++ later))).messages ≡
        (readings nothing (attachment name others first)).messages ++ rest) }
{}

/// What is handed out is a beginning of what was accepted, or sent on, message for message, with tag, format and bytes,
/// and settled as it was sent. Of one end is told: the transfers of its attachment with a name and a count, among the
/// frames that it handed out in a session, and behind them those that wait, say what its link says by these deeds. Of
/// the other: its link hands out what the transfers of the attachment with that name and that count say, among the
/// frames that came there in the session. And what came are the first of what was handed out. That the first half holds
/// of the deeds from the call on by which a link attaches says `what_an_attachment_sends_is_what_it_accepted` (part 2,
/// 2.6.12, 2.6.14).
pub fn what_is_handed_out_begins_what_was_accepted()
    ensures { (name : List ℕ) (others link : ℕ) (own : OutputHandle) (sent : List SessionFrame)
        (waiting : List Piece) (old new : LinkedSessions) (deeds : List Deed) (came more : List FrameBody)
        (handed : List Handed) →
        (said : SayAll link old deeds new (attachment name others (bodies_of sent) ++ waiting)) →
        bodies_of sent ≡ came ++ more →
        handed ≡ map (handed_as own) (readings nothing (attachment name others came)).messages →
        (rest : List Message) × (said.messages ≡ map message_handed handed ++ rest) }
{}

/// What passes in a session of a connection is what one reads who has the connection's frames alone, and tells sessions
/// apart by the channels on which these come and go and by what Begins and Ends say (part 2, 2.5.1, 2.5.2). The frames
/// are those of the peer that are taken and those that sessions hand out, in order, from where the connection begins
/// anew on; and the session is the one that is asked for on it behind so many others, at whichever end. Each frame that
/// sessions hand out is so read as a session's; and an own Begin that names a channel answers a session for which the
/// peer asks there.
pub fn what_passes_is_read()
    ensures passes { (sessions start end : LinkedSessions) (settings : Settings) (before later : List Deed) (number : ℕ)
        (passings : List Passing) → IsNew linked settings sessions → AreDone linked sessions before start →
        Throughout up_behind MayPass false (before ++ Renews ∷ later) → NoneRenews later →
        PassesIn (length start.talk.sessions.places + number) start (Renews ∷ later) end passings →
        passings ≡ passing_in number nothing_read (wired_by later) }
    ensures each { (sessions start end : LinkedSessions) (settings : Settings) (before later : List Deed) →
        IsNew linked settings sessions → AreDone linked sessions before start →
        AreDone linked start (Renews ∷ later) end →
        Throughout up_behind MayPass false (before ++ Renews ∷ later) → NoneRenews later →
        AreOnes nothing_read (wired_by later) }
    ensures answers { (sessions start end : LinkedSessions) (settings : Settings) (before later : List Deed) →
        IsNew linked settings sessions → AreDone linked sessions before start →
        AreDone linked start (Renews ∷ later) end →
        Throughout up_behind MayPass false (before ++ Renews ∷ later) → NoneRenews later →
        AllAnswer nothing_read (wired_by later) }
{}

/// What comes in a session of one end is a beginning of what went in a session of the other: of that whose own Begin
/// went on the channel on which the peer's came, behind as many others there. So it is where the frames that came on the
/// connection are a beginning of those that went on it; and where the peer begins the session once, begins none on that
/// channel as long as one goes on there, and each own Begin that names a channel answers a session for which the peer
/// asks there (part 2, 2.5.1, 2.5.2).
pub fn what_comes_in_a_session_begins_what_went_in_one()
    ensures { (here there channel others : ℕ) (ours theirs : List Wired) (more : List Frame) →
        BeginsOn here channel others ours → BegunOn there channel others theirs →
        map frame_of (goings ours) ≡ comings theirs ++ more →
        (rest : List FrameBody) × (bodies_of (sent_in (passing_in here nothing_read ours)) ≡
        came_in (passing_in there nothing_read theirs) ++ rest) }
{}

/// Between two ends what is handed out of an attachment is a beginning of what was accepted for it, message for message
/// and in order: in sessions that belong together, as the law before says, of an attachment with the same name and the
/// same count at both ends. The one is that by which the link hands out that does (`HandsOut`), and the other that
/// whose transfers, with those that still wait, say what the sending link says by these deeds; and none of the transfers
/// that came resumes a delivery (part 2, 2.6.12, 2.6.14).
pub fn messages_are_handed_out_in_order_between_two_ends()
    ensures { (here there channel others : ℕ) (ours theirs : List Wired) (more : List Frame) (s : LinkedSessions)
        (session link : ℕ) (own : OutputHandle) (name : List ℕ) (handed : List Handed) (waiting : List Piece)
        (old new : LinkedSessions) (deeds : List Deed) → BeginsOn here channel others ours →
        BegunOn there channel others theirs →
        map frame_of (goings ours) ≡ comings theirs ++ more →
        let sent = bodies_of (sent_in (passing_in here nothing_read ours)) in
        let came = came_in (passing_in there nothing_read theirs) in
        (out : HandsOut s session own name came handed) →
        (said : SayAll link old deeds new (attachment name (uses name out.earlier) sent ++ waiting)) →
        NoneResumes (attachment name (uses name out.earlier) came) →
        (rest : List Message) × (said.messages ≡ map message_handed handed ++ rest) }
{}

/// Who reads the frames of a connection, and tells sessions apart by channels alone, finds each transfer that goes in a
/// session in the window that the peer gave it (part 2, 2.5.1, 2.5.6). So it is whatever is done on a connection; and
/// so it is, unless the connection is broken off, with the deeds of a run since the latest connect: those by which its
/// sessions came to stand as they do, its calls are done and its events told, which queue what `pull` gave since then
/// and what is queued still, and take the frames that are read of the bytes fed since then. Each frame that sessions
/// hand out by these fits the limit that is in force: 512 bytes, and from the peer's Open on its max-frame-size (part
/// 2, 2.4.1, 2.7.1).
pub fn transfers_are_read_in_their_windows()
    ensures by_deeds { (sessions start end : LinkedSessions) (settings : Settings) (before later : List Deed)
        (number : ℕ) → IsNew linked settings sessions → AreDone linked sessions before start →
        AreDone linked start (Renews ∷ later) end →
        Throughout up_behind MayPass false (before ++ Renews ∷ later) → NoneRenews later →
        KeepsWindow (begins_with settings.first_transfer_number) (passing_in number nothing_read (wired_by later)) }
    ensures by_calls { (sessions : LinkedSessions) (settings : Settings) (calls : List Call) (told : List Told)
        (end : State LinkedSessions) → IsNew linked settings sessions →
        Run linked (fresh settings sessions) calls told end → is_unconnected end.phase ≡ false →
        (did : IsDone linked settings.max_frame_size sessions (pulled_since [] calls told) (fed_since [] calls told)
        (told_since [] calls told) (done_since [] calls told) (events_told told) (calls_done calls told) end) ×
        Judged settings.first_transfer_number did.since }
{}

/// A Transfer that ends the connection leaves every link as it was: once the connection is over, the links are those
/// that they would be if it had been over before the Transfer came. So it is also where a link refused the Transfer, and
/// there was no memory for its Detach (part 2, 2.6.5, 2.6.7).
pub fn a_transfer_that_ends_the_connection_leaves_the_links()
    ensures { (old refused over over_before : LinkedSessions) (limit channel : ℕ) (transfer : Transfer)
        (payload : List ℕ) (e : EndpointError) →
        linked.refuses old limit channel (body.Transfer transfer payload) e refused →
        linked.finishes refused over → linked.finishes old over_before → over.links ≡ over_before.links }
{}
