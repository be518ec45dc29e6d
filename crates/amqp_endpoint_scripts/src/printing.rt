//! What the steps of a script print.
ghost use Rattle.std.specs.Prelude.{◌≡◌, ◌++◌, codes, decimal, map, IfOk, OnOk, string_bytes};
ghost use Rattle.amqp_endpoint_model.specs.Numbers.{number};
ghost use Rattle.amqp_endpoint_model.specs.Said.{told, said};
ghost use Rattle.amqp_endpoint_model.specs.declared.event.Event.TheVariants as event;
ghost use Rattle.amqp_endpoint_core.specs.WorldSaid.{did_said, feed_said, world_told};
ghost use Rattle.amqp_endpoint_core.specs.WorldState.{other};
ghost use Rattle.amqp_endpoint_scripts.specs.Printed.{bytes_text, closed_word, event_text, events_text, exchange_word};
ghost use Rattle.amqp_endpoint_scripts.specs.Printed.{fault_text, hex_word, of_line, ok_text, outcome_word, printed};
ghost use Rattle.amqp_endpoint_scripts.specs.Printed.{role_word, settled_word, step_text, tag_text, turn_text};
ghost use Rattle.amqp_endpoint_scripts.specs.Printed.{two_numbers, world_printed, world_text};

use crate::script::letter;
use amqp_endpoint_core::{Did, End, Step, WorldReply};
use amqp_endpoint_model::{
    Answer, Attaching, EndpointError, Event, Fed, Message, Outcome, Refused, Reply,
};
use amqp_link_base::AttachExchange;
use amqp_link_types::SendError;
use amqp_session_performatives::Attach;
use amqp_session_states::Outcome as DeliveryOutcome;
use amqp_session_types::Role;
use std::alloc::{AllocError, Global};

/// What the steps of one end print that stand on these lines.
pub fn print_replies(
    alloc: Global,
    lines: &[usize],
    replies: &[Reply],
) -> Result<String, AllocError>
    ensures { IfOk result (λ text. string_bytes text ≡ printed lines.now (map told replies.now)) }
{
    let mut text = String::new(alloc);
    for (line, reply) in lines.iter().zip(replies) {
        print_answer(&mut text, *line, End::A, &reply.answer)?;
    }
    Ok(text)
}

/// What the steps of two ends print that stand on these lines.
pub fn print_world(
    alloc: Global,
    lines: &[usize],
    steps: &[Step],
    replies: &[WorldReply],
) -> Result<String, AllocError>
    ensures { IfOk result (λ text. string_bytes text
        ≡ world_printed lines.now steps.now (map world_told replies.now)) }
{
    let mut text = String::new(alloc);
    for ((line, step), reply) in lines.iter().zip(steps).zip(replies) {
        print_step(&mut text, *line, step, &reply.did)?;
    }
    Ok(text)
}

/// A call is printed at its end, and bytes that are moved at the end that they are fed to.
fn print_step(text: &mut String, line: usize, step: &Step, did: &Did) -> Result<(), AllocError>
    ensures { OnOk result (string_bytes text.new
        ≡ string_bytes text.old ++ world_text line step.now (did_said did.now)) }
{
    match (step, did) {
        (Step::Call(end, _), Did::Called(answer)) => print_answer(text, line, *end, answer),
        (Step::Move(from, _), Did::Moved(moved)) => {
            print_moved(text, line, other(*from), &moved.answer)
        }
        (Step::Break, Did::Broken) => writeln!(text, "{line} ok"),
        _ => Ok(()),
    }
}

/// The end that isn't this one.
fn other(end: End) -> End
    ensures { result ≡ other end }
{
    match end {
        End::A => End::B,
        End::B => End::A,
    }
}

fn print_answer(text: &mut String, line: usize, end: End, answer: &Answer) -> Result<(), AllocError>
    ensures { OnOk result (string_bytes text.new ≡ string_bytes text.old ++ step_text line end (said answer.now)) }
{
    match answer {
        Answer::Refused(error) => print_refusal(text, line, end, error),
        Answer::Fed(fed) => print_fed(text, line, end, fed),
        Answer::Pulled(None) => print_words(text, line, end, "ok none"),
        Answer::Pulled(Some(bytes)) => print_bytes(text, line, end, bytes.as_slice()),
        Answer::Session(session) => print_session(text, line, end, *session),
        Answer::Attaching(attaching) => print_attaching(text, line, end, attaching),
        Answer::LinkClosed(events) => print_closed_link(text, line, end, events.as_slice()),
        Answer::Credit(left) => print_left(text, line, end, *left),
        Answer::Waiting(turn) => print_turn(text, line, end, turn.as_slice()),
        Answer::Sent(sent) => print_tag(text, line, end, sent.tag.as_slice()),
        _ => print_words(text, line, end, "ok"),
    }
}

fn print_moved(
    text: &mut String,
    line: usize,
    end: End,
    answer: &Result<Fed, EndpointError>,
) -> Result<(), AllocError>
    ensures { OnOk result (string_bytes text.new
        ≡ string_bytes text.old ++ step_text line end (feed_said answer.now)) }
{
    match answer {
        Ok(fed) => print_fed(text, line, end, fed),
        Err(error) => print_refusal(text, line, end, error),
    }
}

fn print_words(text: &mut String, line: usize, end: End, words: &str) -> Result<(), AllocError>
    ensures { OnOk result (string_bytes text.new ≡ string_bytes text.old ++ of_line line end words.now) }
{
    let letter = letter(end);
    writeln!(text, "{line} {letter} {words}")
}

fn print_refusal(
    text: &mut String,
    line: usize,
    end: End,
    error: &EndpointError,
) -> Result<(), AllocError>
    ensures { OnOk result (string_bytes text.new
        ≡ string_bytes text.old ++ of_line line end (codes "refused " ++ decimal (number error.now))) }
{
    let letter = letter(end);
    let number = error.number();
    writeln!(text, "{line} {letter} refused {number}")
}

fn print_session(text: &mut String, line: usize, end: End, session: u64) -> Result<(), AllocError>
    ensures { OnOk result (string_bytes text.new
        ≡ string_bytes text.old ++ of_line line end (codes "ok session " ++ decimal session)) }
{
    let letter = letter(end);
    writeln!(text, "{line} {letter} ok session {session}")
}

/// A link that attaches: its number, and what comes of it at once.
fn print_attaching(
    text: &mut String,
    line: usize,
    end: End,
    attaching: &Attaching,
) -> Result<(), AllocError>
    ensures { OnOk result (string_bytes text.new ≡ string_bytes text.old
        ++ (of_line line end (codes "ok link " ++ decimal attaching.now.link)
        ++ events_text line end attaching.now.events.items)) }
{
    let letter = letter(end);
    let link = attaching.link;
    writeln!(text, "{line} {letter} ok link {link}")?;
    print_events(text, line, end, attaching.events.as_slice())
}

/// A link that is closed, and the outcomes that this fails.
fn print_closed_link(
    text: &mut String,
    line: usize,
    end: End,
    events: &[Event],
) -> Result<(), AllocError>
    ensures { OnOk result (string_bytes text.new
        ≡ string_bytes text.old ++ (ok_text line end ++ events_text line end events.now)) }
{
    print_words(text, line, end, "ok")?;
    print_events(text, line, end, events)
}

fn print_left(text: &mut String, line: usize, end: End, left: u32) -> Result<(), AllocError>
    ensures { OnOk result (string_bytes text.new
        ≡ string_bytes text.old ++ of_line line end (codes "ok left " ++ decimal left)) }
{
    let letter = letter(end);
    writeln!(text, "{line} {letter} ok left {left}")
}

/// The links of which transfers wait, each with how many. None at all are written `-`.
fn print_turn(
    text: &mut String,
    line: usize,
    end: End,
    turn: &[(u64, u64)],
) -> Result<(), AllocError>
    ensures { OnOk result (string_bytes text.new
        ≡ string_bytes text.old ++ of_line line end (codes "ok turn" ++ turn_text turn.now)) }
{
    let words = turn_words(*text.allocator(), turn)?;
    let letter = letter(end);
    writeln!(text, "{line} {letter} ok turn{words}")
}

fn turn_words(alloc: Global, turn: &[(u64, u64)]) -> Result<String, AllocError>
    ensures { IfOk result (λ words. string_bytes words ≡ turn_text turn.now) }
{
    if turn.is_empty() {
        return String::from_str(alloc, " -");
    }
    let mut words = String::new(alloc);
    for (link, count) in turn {
        write!(words, " {link}:{count}")?;
    }
    Ok(words)
}

fn print_bytes(text: &mut String, line: usize, end: End, bytes: &[u8]) -> Result<(), AllocError>
    ensures { OnOk result (string_bytes text.new ≡ string_bytes text.old ++ bytes_text line end bytes.now) }
{
    let letter = letter(end);
    let word = hex_word(*text.allocator(), bytes)?;
    writeln!(text, "{line} {letter} ok bytes {word}")
}

/// A message that a link sends: the tag of its delivery.
fn print_tag(text: &mut String, line: usize, end: End, tag: &[u8]) -> Result<(), AllocError>
    ensures { OnOk result (string_bytes text.new ≡ string_bytes text.old ++ tag_text line end tag.now) }
{
    let letter = letter(end);
    let word = hex_word(*text.allocator(), tag)?;
    writeln!(text, "{line} {letter} ok tag {word}")
}

/// Hex digits in lower case, two for each byte. No bytes at all are written `-`.
#[tactic(auto, unfolding(crate::specs::Printed::hex_word))]
fn hex_word(alloc: Global, bytes: &[u8]) -> Result<String, AllocError>
    ensures { IfOk result (λ word. string_bytes word ≡ hex_word bytes.now) }
{
    if bytes.is_empty() {
        return String::from_str(alloc, "-");
    }
    hex::encode(alloc, bytes)
}

fn print_fed(text: &mut String, line: usize, end: End, fed: &Fed) -> Result<(), AllocError>
    ensures { OnOk result (string_bytes text.new ≡ string_bytes text.old
        ++ (ok_text line end ++ (events_text line end fed.now.events.items ++ fault_text line end fed.now.fault))) }
{
    print_words(text, line, end, "ok")?;
    print_events(text, line, end, fed.events.as_slice())?;
    print_fault(text, line, end, &fed.fault)
}

fn print_events(
    text: &mut String,
    line: usize,
    end: End,
    events: &[Event],
) -> Result<(), AllocError>
    ensures { OnOk result (string_bytes text.new
        ≡ string_bytes text.old ++ events_text line end events.now) }
{
    for event in events {
        print_event(text, line, end, event)?;
    }
    Ok(())
}

fn print_event(text: &mut String, line: usize, end: End, event: &Event) -> Result<(), AllocError>
    ensures { OnOk result (string_bytes text.new ≡ string_bytes text.old ++ event_text line end event.now) }
{
    match event {
        Event::Opened(opened) => {
            let limit = u64::from(opened.max_frame_size);
            print_numbers(text, line, end, "opened", limit, opened.channel_max)
        }
        Event::SessionAsked(asked) => {
            print_numbers(
                text,
                line,
                end,
                "session-asked",
                asked.session,
                asked.channel.0,
            )
        }
        Event::Begun(begun) => {
            print_numbers(text, line, end, "begun", begun.session, begun.channel.0)
        }
        Event::LinkAsked(asked) => print_link(text, line, end, asked.session, &asked.attach),
        Event::Attached(attached) => {
            let word = exchange_word(attached.exchange);
            print_word_of_link(text, line, end, "attached", attached.link, word)
        }
        Event::Message(message) => print_message(text, line, end, message),
        Event::Outcome(outcome) => print_outcome(text, line, end, outcome),
        Event::Detached(detached) => {
            let word = closed_word(detached.closed);
            print_word_of_link(text, line, end, "detached", detached.link, word)
        }
        Event::Ended(ended) => print_ended(text, line, end, ended.session),
        Event::Refused(refused) => print_refused(text, line, end, refused),
        Event::Closed(_) => print_words(text, line, end, "closed"),
    }
}

fn print_numbers(
    text: &mut String,
    line: usize,
    end: End,
    word: &str,
    first: u64,
    second: u16,
) -> Result<(), AllocError>
    ensures { OnOk result (string_bytes text.new
        ≡ string_bytes text.old ++ of_line line end (two_numbers word.now first second)) }
{
    let letter = letter(end);
    writeln!(text, "{line} {letter} {word} {first} {second}")
}

/// A link that is asked for: its session, the role of who asks, and the link's name.
fn print_link(
    text: &mut String,
    line: usize,
    end: End,
    session: u64,
    attach: &Attach,
) -> Result<(), AllocError>
    ensures { OnOk result (string_bytes text.new ≡ string_bytes text.old
        ++ of_line line end (codes "link-asked " ++ (decimal session
        ++ (codes " " ++ (role_word attach.now.role ++ (codes " " ++ attach.now.name)))))) }
{
    let alloc = *text.allocator();
    let role = role_word(attach.role);
    let name = attach.name.as_str();
    let words = format!(in alloc; "link-asked {session} {role} {name}")?;
    print_words(text, line, end, words.as_str())
}

/// The role of who asks for a link.
fn role_word(role: Role) -> &'static str
    ensures { result.now ≡ role_word role }
{
    match role {
        Role::Sender => "sender",
        Role::Receiver => "receiver",
    }
}

/// What is to be done for the deliveries of a link that are unsettled.
fn exchange_word(exchange: AttachExchange) -> &'static str
    ensures { result.now ≡ exchange_word exchange }
{
    match exchange {
        AttachExchange::Complete => "complete",
        AttachExchange::IncompleteUnsettled => "incomplete",
        AttachExchange::Resume => "resume",
    }
}

/// A message that came: its link, its number, whether its sender has settled it, its tag and its bytes.
fn print_message(
    text: &mut String,
    line: usize,
    end: End,
    message: &Message,
) -> Result<(), AllocError>
    ensures { OnOk result (string_bytes text.new
        ≡ string_bytes text.old ++ event_text line end (event.Message message.now)) }
{
    let alloc = *text.allocator();
    let tag = hex_word(alloc, message.delivery.delivery_tag.as_slice())?;
    let payload = hex_word(alloc, message.delivery.message.body.0.as_slice())?;
    let letter = letter(end);
    let link = message.link;
    let number = message.message;
    let settled = settled_word(message.settled);
    writeln!(
        text,
        "{line} {letter} message {link} {number} {settled} {tag} {payload}"
    )
}

/// Whether the sender of a message has settled it.
fn settled_word(settled: bool) -> &'static str
    ensures { result.now ≡ settled_word settled }
{
    if settled { "settled" } else { "unsettled" }
}

/// What became of a message that was sent: its link, its tag and its outcome.
fn print_outcome(
    text: &mut String,
    line: usize,
    end: End,
    outcome: &Outcome,
) -> Result<(), AllocError>
    ensures { OnOk result (string_bytes text.new
        ≡ string_bytes text.old ++ event_text line end (event.Outcome outcome.now)) }
{
    let tag = hex_word(*text.allocator(), outcome.tag.as_slice())?;
    let letter = letter(end);
    let link = outcome.link;
    let word = outcome_word(&outcome.result);
    writeln!(text, "{line} {letter} outcome {link} {tag} {word}")
}

/// The outcome of a message that was sent, `failed` where it has none (part 3, 3.4).
fn outcome_word(outcome: &Result<DeliveryOutcome, SendError>) -> &'static str
    ensures { result.now ≡ outcome_word outcome.now }
{
    match outcome {
        Ok(DeliveryOutcome::Accepted(_)) => "accepted",
        Ok(DeliveryOutcome::Rejected(_)) => "rejected",
        Ok(DeliveryOutcome::Released(_)) => "released",
        Ok(DeliveryOutcome::Modified(_)) => "modified",
        Err(_) => "failed",
    }
}

/// Whether a link that was detached was closed.
fn closed_word(closed: bool) -> &'static str
    ensures { result.now ≡ closed_word closed }
{
    if closed { "closed" } else { "detached" }
}

/// What comes of a link: its number, and a word of it.
fn print_word_of_link(
    text: &mut String,
    line: usize,
    end: End,
    event: &str,
    link: u64,
    word: &str,
) -> Result<(), AllocError>
    ensures { OnOk result (string_bytes text.new ≡ string_bytes text.old
        ++ of_line line end (event.now ++ (codes " " ++ (decimal link ++ (codes " " ++ word.now))))) }
{
    let letter = letter(end);
    writeln!(text, "{line} {letter} {event} {link} {word}")
}

fn print_ended(text: &mut String, line: usize, end: End, session: u64) -> Result<(), AllocError>
    ensures { OnOk result (string_bytes text.new
        ≡ string_bytes text.old ++ of_line line end (codes "ended " ++ decimal session)) }
{
    let letter = letter(end);
    writeln!(text, "{line} {letter} ended {session}")
}

/// A session or a link that was ended here: their numbers, that of a link `-` where there is none, and the error's.
fn print_refused(
    text: &mut String,
    line: usize,
    end: End,
    refused: &Refused,
) -> Result<(), AllocError>
    ensures { OnOk result (string_bytes text.new
        ≡ string_bytes text.old ++ event_text line end (event.Refused refused.now)) }
{
    let letter = letter(end);
    let session = refused.session;
    let number = refused.error.number();
    match refused.link {
        None => writeln!(text, "{line} {letter} refused {session} - {number}"),
        Some(link) => writeln!(text, "{line} {letter} refused {session} {link} {number}"),
    }
}

fn print_fault(
    text: &mut String,
    line: usize,
    end: End,
    fault: &Option<EndpointError>,
) -> Result<(), AllocError>
    ensures { OnOk result (string_bytes text.new ≡ string_bytes text.old ++ fault_text line end fault.now) }
{
    match fault {
        Some(error) => {
            let letter = letter(end);
            let number = error.number();
            writeln!(text, "{line} {letter} fault {number}")
        }
        None => Ok(()),
    }
}
