//! What the peer's Attach makes of the open messages of a sending link (part 2, 2.6.13 and 2.7.3).
ghost use Rattle.std.specs.Prelude.{◌≡◌, ◌++◌, [], ◌∷◌, length, IfOk, OnOk};
ghost use Rattle.std.specs.VecDeque.Iter.{deque_iter_rest};
ghost use Rattle.amqp_link_unsettled.specs.Exchanging.{all_ended, carried_out, ends_too, given_up_too, nothing};
ghost use Rattle.amqp_link_unsettled.specs.Exchanging.{planned, unknown, unknown_of, waits_too, with_message};
ghost use Rattle.amqp_link_unsettled.specs.Exchanging.{with_messages};

use crate::fate::{Fate, fate_of, listed_of};
use crate::messages::Messages;
use crate::open::{Open, Waiting};
use crate::resolution::Resolution;
use crate::{Iter, UnsettledList};
use amqp_session_states::DeliveryState;
use amqp_session_types::DeliveryTag;
use indexmap::map;
use std::alloc::{AllocError, Global};
use std::collections::{VecDeque, vec_deque};
use std::marker::Model;

/// A delivery that is given up (part 2, 2.6.13).
#[derive(Debug, Drop)]
pub struct Abort {
    /// What the link calls it.
    pub tag: DeliveryTag,
    /// How its message is encoded; 0 of a delivery that only the peer knows.
    pub message_format: u32,
}

/// What becomes of messages.
struct Gathering {
    ended: VecDeque<(DeliveryTag, Resolution)>,
    going: VecDeque<Waiting>,
    others: VecDeque<Waiting>,
    aborts: Vec<Abort>,
}

impl Drop for Gathering {
    fn drop(self) {
        let Gathering {
            ended: _,
            going: _,
            others: _,
            aborts: _,
        } = self;
    }
}

impl Model for Gathering {
    ghost use Rattle.amqp_link_unsettled.specs.Exchanging.{Becoming};

    ghost Value = { Becoming };

    ghost view = { λ g. record {
      ended = g.ended.items;
      going = g.going.items;
      others = g.others.items;
      aborts = g.aborts.items;
    } };
}

impl Gathering {
    /// No messages.
    fn new(alloc: Global) -> Self
        ensures { result ≡ nothing }
    {
        Gathering {
            ended: VecDeque::new(alloc),
            going: VecDeque::new(alloc),
            others: VecDeque::new(alloc),
            aborts: Vec::new(alloc),
        }
    }

    /// One message more.
    fn add(&mut self, tag: DeliveryTag, message: &Open, fate: Fate) -> Result<(), AllocError>
        ensures { OnOk result (self.new ≡ with_message self.old tag message.now fate) }
    {
        match fate {
            Fate::Undecided => Ok(()),
            Fate::SendOn(resumption) => {
                let going = message.goes_on(resumption);
                self.wait(going, Waiting { tag, resumption })
            }
            Fate::End(resolution) => push_back(&mut self.ended, (tag, resolution)),
            Fate::Abort => self.give_up(tag, message.message_format),
        }
    }

    /// One message more that is sent on.
    fn wait(&mut self, going: bool, waiting: Waiting) -> Result<(), AllocError>
        ensures { OnOk result (self.new ≡ waits_too self.old going waiting) }
    {
        if going {
            return push_back(&mut self.going, waiting);
        }
        push_back(&mut self.others, waiting)
    }

    /// One message more that is given up.
    fn give_up(&mut self, tag: DeliveryTag, message_format: u32) -> Result<(), AllocError>
        ensures { OnOk result (self.new ≡ given_up_too (ends_too self.old tag Resolution.Aborted)
            (record { tag = tag; message_format = message_format })) }
    {
        let key = tag.clone()?;
        push_back(&mut self.ended, (key, Resolution::Aborted))?;
        push(
            &mut self.aborts,
            Abort {
                tag,
                message_format,
            },
        )
    }
}

/// What the peer's Attach makes of the open messages of a link, made ready before anything changes. A clause sees which
/// messages end, which wait to be sent on, and what is given up.
#[derive(Debug, Drop)]
pub struct PreparedExchange {
    ended: VecDeque<(DeliveryTag, Resolution)>,
    waiting: VecDeque<Waiting>,
    aborts: Vec<Abort>,
}

impl Model for PreparedExchange {
    ghost use Rattle.amqp_link_unsettled.specs.Exchanging.{Plan};

    ghost Value = { Plan };

    ghost view = { λ p. record {
      ended = p.ended.items;
      waiting = p.waiting.items;
      aborts = p.aborts.items;
    } };
}

impl PreparedExchange {
    /// The deliveries that are given up.
    pub fn aborts(&self) -> &[Abort]
        ensures { result.now ≡ self.now.aborts }
    {
        self.aborts.as_slice()
    }

    /// How many messages end.
    pub fn ended_len(&self) -> usize
        ensures { result ≡ length self.now.ended }
    {
        self.ended.len()
    }

    /// The messages that wait to be sent on then, in the order in which they go.
    pub fn waiting(&self) -> vec_deque::Iter<'_, Waiting>
        ensures { deque_iter_rest result ≡ self.now.waiting }
    {
        self.waiting.iter()
    }
}

impl Messages {
    /// Makes ready what the peer's Attach lists of the open messages (part 2, 2.6.13 and 2.7.3). Nothing changes yet.
    ///
    /// A message is to be sent on, or it is to end, by what was told of it and by what is listed; one that isn't listed
    /// only where the list isn't incomplete. First those wait to be sent on of which the receiver has a part and bytes are
    /// left, then the others, each in the order in which they were accepted. What is given up are messages of the link, in
    /// that order, and then deliveries that the peer lists and the link doesn't know, in the order of the list.
    ///
    /// It is refused where there is no memory. It takes time by the messages and by the list.
    pub fn prepare_exchange(
        &self,
        alloc: Global,
        listed: &Option<UnsettledList>,
        incomplete: bool,
    ) -> Result<PreparedExchange, AllocError>
        ensures { IfOk result (λ plan. plan ≡ planned self.now listed.now incomplete) }
    {
        let mut gathering = Gathering::new(alloc);
        gather(self.iter(), listed, incomplete, &mut gathering)?;
        let (ended, waiting, given_up) = gathering.into_parts()?;
        let aborts = with_unknown(self, listed, given_up)?;
        Ok(PreparedExchange {
            ended,
            waiting,
            aborts,
        })
    }

    /// The open messages come to what was made ready, and the answer is what is given up. It takes no memory.
    pub fn commit_exchange(&mut self, prepared: PreparedExchange) -> Vec<Abort>
        ensures messages { self.new ≡ carried_out self.old prepared }
        ensures aborts { result.items ≡ prepared.aborts }
    {
        let PreparedExchange {
            ended,
            waiting,
            aborts,
        } = prepared;
        self.interrupt();
        end_all(self, ended);
        self.set_waiting(waiting);
        aborts
    }
}

/// What becomes of messages: those that end, those that are to be sent on, and those that are given up.
type Parts = (
    VecDeque<(DeliveryTag, Resolution)>,
    VecDeque<Waiting>,
    Vec<Abort>,
);

impl Gathering {
    /// The messages that end, those that are to be sent on, in the order in which they go, and those that are given up.
    fn into_parts(self) -> Result<Parts, AllocError>
        ensures { IfOk result (λ p. (p.0.items ≡ self.ended)
            × (p.1.items ≡ self.going ++ self.others)
            × (p.2.items ≡ self.aborts)) }
    {
        let Gathering {
            ended,
            going,
            others,
            aborts,
        } = self;
        let waiting = joined(going, others)?;
        Ok((ended, waiting, aborts))
    }
}

/// What becomes of these messages, behind what is gathered already.
fn gather(
    entries: Iter<'_, Open>,
    listed: &Option<UnsettledList>,
    incomplete: bool,
    gathering: &mut Gathering,
) -> Result<(), AllocError>
    ensures { OnOk result (gathering.new ≡ with_messages listed.now incomplete gathering.old
        entries.entry) }
{
    let mut entries = entries;
    while let Some((tag, message)) = entries.next() {
        let key = tag.clone()?;
        let fate = fate_of(incomplete, message, listed_of(listed, tag))?;
        gathering.add(key, message, fate)?;
    }
    Ok(())
}

/// What is given up, and behind it the deliveries that the peer lists and the link doesn't know.
fn with_unknown(
    messages: &Messages,
    listed: &Option<UnsettledList>,
    given_up: Vec<Abort>,
) -> Result<Vec<Abort>, AllocError>
    ensures { IfOk result (λ all. all.items ≡ given_up.items
        ++ unknown_of messages.now listed.now) }
{
    let mut given_up = given_up;
    if let Some(list) = listed {
        gather_unknown(messages, list.iter(), &mut given_up)?;
    }
    Ok(given_up)
}

/// The deliveries that the peer lists and the link doesn't know, behind what is given up already.
fn gather_unknown(
    messages: &Messages,
    list: map::Iter<'_, DeliveryTag, Option<DeliveryState>>,
    given_up: &mut Vec<Abort>,
) -> Result<(), AllocError>
    ensures { OnOk result (given_up.new.items ≡ given_up.old.items
        ++ unknown messages.now list.entry) }
{
    let mut list = list;
    while let Some((tag, _)) = list.next() {
        if !messages.is_open(tag) {
            let tag = tag.clone()?;
            push(
                given_up,
                Abort {
                    tag,
                    message_format: 0,
                },
            )?;
        }
    }
    Ok(())
}

/// Messages end one after the other, each that is open.
fn end_all(messages: &mut Messages, ended: VecDeque<(DeliveryTag, Resolution)>)
    ensures { messages.new ≡ all_ended messages.old ended.items }
{
    let mut ended = ended;
    while let Some((tag, resolution)) = ended.pop_front() {
        messages.end(&tag, resolution);
    }
}

/// The one list behind the other.
fn joined<T: Drop>(first: VecDeque<T>, second: VecDeque<T>) -> Result<VecDeque<T>, AllocError>
    ensures { IfOk result (λ all. all.items ≡ first.items ++ second.items) }
{
    let (mut first, mut second) = (first, second);
    first.append(&mut second)?;
    Ok(first)
}

/// A value behind the others.
fn push_back<T: Drop>(list: &mut VecDeque<T>, value: T) -> Result<(), AllocError>
    ensures { OnOk result (list.new.items ≡ list.old.items ++ value ∷ []) }
{
    list.push_back(value)?;
    Ok(())
}

/// A value behind the others.
fn push<T: Drop>(list: &mut Vec<T>, value: T) -> Result<(), AllocError>
    ensures { OnOk result (list.new.items ≡ list.old.items ++ value ∷ []) }
{
    list.push(value)?;
    Ok(())
}
