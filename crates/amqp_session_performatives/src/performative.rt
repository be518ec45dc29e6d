//! The performatives as one type (part 2, 2.7).
ghost use Rattle.std.specs.Prelude.{◌≡◌, IfOk, OnOk, None, refl};
ghost use Rattle.serde_amqp_read.specs.Reads.{Unless};
ghost use Rattle.serde_amqp_de.specs.Reads.{at_of};
ghost use Rattle.serde_amqp_values.specs.Choice.{RefusesList};
ghost use Rattle.amqp_session_performatives.specs.Reading.{TookRecord};
ghost use Rattle.amqp_session_performatives.specs.Attach.{attach_takes};
ghost use Rattle.amqp_session_performatives.specs.Performative.{performative_item, performative_table};
ghost use Rattle.amqp_session_performatives.specs.Performative.{performative_taken};
ghost use Rattle.amqp_session_performatives.specs.PerformativeLaws.{performatives_decided, performatives_differ};
ghost use Rattle.amqp_session_performatives.specs.PerformativeLaws.{performative_decided, performative_again};
ghost use Rattle.amqp_session_performatives.specs.PerformativeLaws.{performative_same, performative_present};

use crate::attach::{self, Attach};
use crate::begin::{self, Begin};
use crate::close::{self, Close};
use crate::composite::Performs;
use crate::detach::{self, Detach};
use crate::disposition::{self, Disposition};
use crate::end::{self, End};
use crate::flow::{self, Flow};
use crate::open::{self, Open};
use crate::transfer::{self, Transfer};
use amqp_session_types::Boxed;
use serde_amqp_de::{Deserialize, Deserializer, NeverNull, Read};
use serde_amqp_item::Error;
use serde_amqp_round_trip::{Faithful, RoundTrip};
use serde_amqp_ser::{Serialize, Serializer, Sink};
use serde_amqp_values::{Choice, read_choice};
use std::alloc::{AllocError, Global};

/// What a frame says (part 2, 2.7).
#[derive(Debug, PartialEq, Drop)]
pub enum Performative {
    /// Begins a connection (part 2, 2.7.1).
    Open(Open),
    /// Begins a session (part 2, 2.7.2).
    Begin(Begin),
    /// Attaches a link (part 2, 2.7.3).
    Attach(Boxed<Attach>),
    /// Tells the state of a session or a link (part 2, 2.7.4).
    Flow(Flow),
    /// Carries a delivery or a part of it (part 2, 2.7.5).
    Transfer(Transfer),
    /// Tells the state of deliveries (part 2, 2.7.6).
    Disposition(Disposition),
    /// Detaches a link (part 2, 2.7.7).
    Detach(Detach),
    /// Ends a session (part 2, 2.7.8).
    End(End),
    /// Ends a connection (part 2, 2.7.9).
    Close(Close),
}

impl Clone for Performative {
    ghost is_clone = { λ x y. y ≡ x };

    fn clone(&self) -> Result<Self, AllocError> {
        match self {
            Performative::Open(open) => Ok(Performative::Open(open.clone()?)),
            Performative::Begin(begin) => Ok(Performative::Begin(begin.clone()?)),
            Performative::Attach(attach) => Ok(Performative::Attach(attach.clone()?)),
            Performative::Flow(flow) => Ok(Performative::Flow(flow.clone()?)),
            Performative::Transfer(transfer) => Ok(Performative::Transfer(transfer.clone()?)),
            Performative::Disposition(disposition) => Ok(Performative::Disposition(
                disposition.clone()?,
            )),
            Performative::Detach(detach) => Ok(Performative::Detach(detach.clone()?)),
            Performative::End(end) => Ok(Performative::End(end.clone()?)),
            Performative::Close(close) => Ok(Performative::Close(close.clone()?)),
        }
    }
}

impl Serialize for Performative {
    ghost item = { performative_item };

    fn is_null(&self) -> bool {
        false
    }

    fn serialize<W: Sink>(&self, s: &mut Serializer<W>) -> Result<(), Error> {
        match self {
            Performative::Open(open) => open.serialize(s),
            Performative::Begin(begin) => begin.serialize(s),
            Performative::Attach(attach) => attach.serialize(s),
            Performative::Flow(flow) => flow.serialize(s),
            Performative::Transfer(transfer) => transfer.serialize(s),
            Performative::Disposition(disposition) => disposition.serialize(s),
            Performative::Detach(detach) => detach.serialize(s),
            Performative::End(end) => end.serialize(s),
            Performative::Close(close) => close.serialize(s),
        }
    }
}

impl Choice for Performative {
    ghost table = { performative_table };

    ghost item = { performative_item };

    fn code_of_name(name: &[u8]) -> Option<u64> {
        if name == open::NAME {
            return Some(open::CODE);
        }
        if name == begin::NAME {
            return Some(begin::CODE);
        }
        if name == attach::NAME {
            return Some(attach::CODE);
        }
        if name == flow::NAME {
            return Some(flow::CODE);
        }
        if name == transfer::NAME {
            return Some(transfer::CODE);
        }
        if name == disposition::NAME {
            return Some(disposition::CODE);
        }
        if name == detach::NAME {
            return Some(detach::CODE);
        }
        if name == end::NAME {
            return Some(end::CODE);
        }
        if name == close::NAME {
            return Some(close::CODE);
        }
        None
    }

    #[tactic(auto, using(crate::proofs::Reading::reading))]
    fn read_fields<R: Read>(
        alloc: Global,
        de: &mut Deserializer<R>,
        code: u64,
    ) -> Result<Performative, Error> {
        match code {
            open::CODE => read_as::<Open, R>(alloc, de),
            begin::CODE => read_as::<Begin, R>(alloc, de),
            attach::CODE => read_attach(alloc, de),
            flow::CODE => read_as::<Flow, R>(alloc, de),
            transfer::CODE => read_as::<Transfer, R>(alloc, de),
            disposition::CODE => read_as::<Disposition, R>(alloc, de),
            detach::CODE => read_as::<Detach, R>(alloc, de),
            end::CODE => read_as::<End, R>(alloc, de),
            close::CODE => read_as::<Close, R>(alloc, de),
            _ => Err(Error::InvalidValue),
        }
    }

    ghost decided = { performatives_decided };

    ghost differ = { performatives_differ };
}

/// Reads the list of the fields of this composite type, which stands behind its descriptor.
///
/// Each type has a function of its own here: in one function, reading any of them would take the room of all.
///
/// Errors: `Memory`; a fault of the reader itself; any other exactly where no front of what is left is a wire form of a
/// list that the fields take.
#[inline(never)]
#[tactic(auto, using(crate::proofs::Reading::composed))]
fn read_as<C: Performs, R: Read>(
    alloc: Global,
    de: &mut Deserializer<R>,
) -> Result<Performative, Error>
    requires { de.old.element ≡ None }
    ensures ok { IfOk result (λ p. TookRecord C.Composite.takes C.code (at_of R.rest de.old)
        (at_of R.rest de.new) (performative_item p)) }
    ensures element { OnOk result (de.new.element ≡ None) }
    ensures refused { Unless R.faulty result (RefusesList C.Composite.takes (at_of R.rest de.old)) }
{
    let value = C::read_fields(alloc, de)?;
    Ok(value.into_performative())
}

/// Reads the list of the fields of an attach, which stands behind its descriptor.
///
/// Errors: as those of `read_as`.
#[inline(never)]
#[tactic(auto, using(crate::proofs::Reading::composed))]
fn read_attach<R: Read>(alloc: Global, de: &mut Deserializer<R>) -> Result<Performative, Error>
    requires { de.old.element ≡ None }
    ensures ok { IfOk result (λ p. TookRecord attach_takes 0x12 (at_of R.rest de.old)
        (at_of R.rest de.new) (performative_item p)) }
    ensures element { OnOk result (de.new.element ≡ None) }
    ensures refused { Unless R.faulty result (RefusesList attach_takes (at_of R.rest de.old)) }
{
    let attach = Attach::read_boxed(alloc, de)?;
    Ok(Performative::Attach(attach))
}

/// A described list with the descriptor of one of the performatives. Any other descriptor answers `InvalidValue`.
impl Deserialize for Performative {
    ghost item = { performative_item };

    ghost take = { performative_taken };

    #[tactic(auto, unfolding(serde_amqp_values::specs::Choice::choice_taken))]
    fn absent(_alloc: Global) -> Option<Performative> {
        None
    }

    fn read<R: Read>(alloc: Global, de: &mut Deserializer<R>) -> Result<Performative, Error> {
        read_choice(alloc, de)
    }

    ghost decided = { performative_decided };
}

impl RoundTrip for Performative {
    ghost same = { λ _. refl };

    ghost again = { performative_again };
}

impl Faithful for Performative {
    ghost faithful = { performative_same };
}

impl NeverNull for Performative {
    ghost present = { performative_present };
}
