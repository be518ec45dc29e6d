//! The attach performative (part 2, 2.7.3).
ghost use Rattle.std.specs.Prelude.{◌≡◌, IfOk, OnOk, None, refl};
ghost use Rattle.serde_amqp_read.specs.Reads.{Unless};
ghost use Rattle.serde_amqp_de.specs.Reads.{at_of};
ghost use Rattle.serde_amqp_values.specs.Choice.{TookList, RefusesList};
ghost use Rattle.amqp_session_performatives.specs.Attach.{attach_fields, attach_item, attach_takes, attach_taken};
ghost use Rattle.amqp_session_performatives.specs.AttachLaws.{attach_decided, attach_again, attach_same};

use crate::both::both;
use crate::composite::{Composite, read_composite};
use amqp_session_states::{DeliveryState, Source, TargetArchetype};
use amqp_session_types::{
    Aside, Boxed, DeliveryTag, Fields, Handle, OrDefault, ReceiverSettleMode, Role,
    SenderSettleMode,
};
use serde_amqp_de::{Deserialize, Deserializer, NeverNull, Read};
use serde_amqp_round_trip::{Faithful, RoundTrip};
use serde_amqp_ser::{Serialize, Serializer, Sink, serialize_record};
use serde_amqp_types::{Array, BoolOr, Multiple, Symbol, Text};
use serde_amqp_values::{OrderedMap, read_fields_of};
use std::alloc::{AllocError, Global};

/// Attaches a link to a session (part 2, 2.7.3).
#[derive(Debug, PartialEq, Drop)]
pub struct Attach {
    /// The name of the link.
    pub name: Text,
    /// What stands for the link in the frames of the sender of this one.
    pub handle: Handle,
    /// Which end of the link the sender of this frame is.
    pub role: Role,
    /// How the sending end settles its deliveries. Mixed where it is absent.
    pub snd_settle_mode: SenderSettleMode,
    /// How the receiving end settles its deliveries. First where it is absent.
    pub rcv_settle_mode: ReceiverSettleMode,
    /// Where messages come from.
    pub source: Option<Source>,
    /// Where messages go to.
    pub target: Option<TargetArchetype>,
    /// The deliveries that are unsettled, by their tags, with the state of each.
    pub unsettled: Option<OrderedMap<DeliveryTag, Option<DeliveryState>>>,
    /// Whether there are more unsettled deliveries than are listed. False where it is absent.
    pub incomplete_unsettled: bool,
    /// How many deliveries the sending end counts as sent before. A receiving end leaves it off.
    pub initial_delivery_count: Option<u32>,
    /// The size of the largest message that the sender of this frame takes, in bytes. Absent or 0 for no bound.
    pub max_message_size: Option<u64>,
    /// What the sender of this frame can do.
    pub offered_capabilities: Array<Symbol>,
    /// What the sender of this frame may use if the other end can do it.
    pub desired_capabilities: Array<Symbol>,
    /// More about the link, by names.
    pub properties: Option<Boxed<Fields>>,
}

/// The descriptor's code.
pub(crate) const CODE: u64 = 0x12;

/// The descriptor's name.
pub(crate) const NAME: &[u8] = b"amqp:attach:list";

impl Clone for Attach {
    ghost is_clone = { λ x y. y ≡ x };

    fn clone(&self) -> Result<Self, AllocError> {
        let (
            ((name, properties), (offered_capabilities, desired_capabilities)),
            (unsettled, (source, target)),
        ) = self.clone_parts()?;
        Ok(Attach {
            name,
            handle: self.handle,
            role: self.role,
            snd_settle_mode: self.snd_settle_mode,
            rcv_settle_mode: self.rcv_settle_mode,
            source,
            target,
            unsettled,
            incomplete_unsettled: self.incomplete_unsettled,
            initial_delivery_count: self.initial_delivery_count,
            max_message_size: self.max_message_size,
            offered_capabilities,
            desired_capabilities,
            properties,
        })
    }
}

/// The states of unsettled deliveries by their tags.
type Unsettled = OrderedMap<DeliveryTag, Option<DeliveryState>>;

/// What of an attach isn't copied: its name and its properties, the capabilities, the unsettled deliveries, and its source
/// and its target.
type Parts = (
    (
        (Text, Option<Boxed<Fields>>),
        (Array<Symbol>, Array<Symbol>),
    ),
    (Option<Unsettled>, (Option<Source>, Option<TargetArchetype>)),
);

impl Attach {
    /// Clones of what isn't copied.
    fn clone_parts(&self) -> Result<Parts, AllocError>
        ensures { IfOk result (λ c. (((c.0.0.0 ≡ self.now.name) × (c.0.0.1 ≡ self.now.properties)) × ((c.0.1.0 ≡ self.now.offered_capabilities) × (c.0.1.1 ≡ self.now.desired_capabilities)))
            × ((c.1.0 ≡ self.now.unsettled) × ((c.1.1.0 ≡ self.now.source) × (c.1.1.1 ≡ self.now.target)))) }
    {
        both(
            both(self.clone_name(), self.clone_capabilities()),
            both(self.clone_unsettled(), self.clone_termini()),
        )
    }

    /// Clones of the name and the properties.
    fn clone_name(&self) -> Result<(Text, Option<Boxed<Fields>>), AllocError>
        ensures { IfOk result (λ c. (c.0 ≡ self.now.name) × (c.1 ≡ self.now.properties)) }
    {
        Ok((self.name.clone()?, self.properties.clone()?))
    }

    /// A clone of the map of unsettled deliveries.
    fn clone_unsettled(&self) -> Result<Option<Unsettled>, AllocError>
        ensures { IfOk result (λ c. c ≡ self.now.unsettled) }
    {
        Ok(self.unsettled.clone()?)
    }

    /// Clones of the source and the target.
    fn clone_termini(&self) -> Result<(Option<Source>, Option<TargetArchetype>), AllocError>
        ensures { IfOk result (λ c. (c.0 ≡ self.now.source) × (c.1 ≡ self.now.target)) }
    {
        let target = self.target.clone()?;
        Ok((self.source.clone()?, target))
    }

    /// Clones of the capabilities.
    #[tactic(auto, using(crate::proofs::Clones::symbols_cloned))]
    fn clone_capabilities(&self) -> Result<(Array<Symbol>, Array<Symbol>), AllocError>
        ensures { IfOk result (λ c. (c.0 ≡ self.now.offered_capabilities)
            × (c.1 ≡ self.now.desired_capabilities)) }
    {
        Ok((
            self.offered_capabilities.clone()?,
            self.desired_capabilities.clone()?,
        ))
    }
}

/// The fields in their order.
type Row = (
    Text,
    (
        Handle,
        (
            Role,
            (
                OrDefault<SenderSettleMode>,
                (
                    OrDefault<ReceiverSettleMode>,
                    (
                        Option<Source>,
                        (
                            Option<TargetArchetype>,
                            (
                                Option<OrderedMap<DeliveryTag, Option<DeliveryState>>>,
                                (
                                    BoolOr<false>,
                                    (
                                        Option<u32>,
                                        (
                                            Option<u64>,
                                            (
                                                Multiple<Array<Symbol>>,
                                                (Multiple<Array<Symbol>>, (Aside<Fields>, ())),
                                            ),
                                        ),
                                    ),
                                ),
                            ),
                        ),
                    ),
                ),
            ),
        ),
    ),
);

/// The attach with these fields.
macro_rules! from_row {
    ($row:expr) => {{
        let (name, (handle, (role, (OrDefault(snd_settle_mode), (OrDefault(rcv_settle_mode), (source, (target, others))))))) = $row;
        let row_pattern![unsettled, BoolOr(incomplete_unsettled), initial_delivery_count, max_message_size, Multiple(offered_capabilities), Multiple(desired_capabilities), Aside(properties)] = others;
        Attach { name, handle, role, snd_settle_mode, rcv_settle_mode, source, target, unsettled, incomplete_unsettled, initial_delivery_count, max_message_size, offered_capabilities, desired_capabilities, properties }
    }};
}

impl Composite for Attach {
    ghost takes = { attach_takes };

    ghost fields = { attach_fields };

    #[inline(always)]
    fn read_fields<R: Read>(
        alloc: Global,
        de: &mut Deserializer<R>,
    ) -> Result<Attach, serde_amqp_item::Error> {
        Attach::read_list(alloc, de)
    }
}

impl Attach {
    /// Reads the list of the fields, which stands behind the descriptor.
    ///
    /// Errors: `Memory`; a fault of the reader itself; any other exactly where no front of what is left is a wire form
    /// of a list that the fields take.
    fn read_list<R: Read>(
        alloc: Global,
        de: &mut Deserializer<R>,
    ) -> Result<Attach, serde_amqp_item::Error>
        requires { de.old.element ≡ None }
        ensures ok { IfOk result (λ v. TookList attach_takes (at_of R.rest de.old)
            (at_of R.rest de.new) (attach_fields v)) }
        ensures element { OnOk result (de.new.element ≡ None) }
        ensures refused { Unless R.faulty result (RefusesList attach_takes (at_of R.rest de.old)) }
    {
        let row = read_fields_of::<Row, R>(alloc, de)?;
        Ok(from_row!(row))
    }

    /// Reads the list of the fields, which stands behind the descriptor, as an attach behind a pointer.
    ///
    /// Errors: `Memory`; a fault of the reader itself; any other exactly where no front of what is left is a wire form
    /// of a list that the fields take.
    #[inline(never)]
    pub(crate) fn read_boxed<R: Read>(
        alloc: Global,
        de: &mut Deserializer<R>,
    ) -> Result<Boxed<Attach>, serde_amqp_item::Error>
        requires { de.old.element ≡ None }
        ensures ok { IfOk result (λ v. TookList attach_takes (at_of R.rest de.old)
            (at_of R.rest de.new) (attach_fields v)) }
        ensures element { OnOk result (de.new.element ≡ None) }
        ensures refused { Unless R.faulty result (RefusesList attach_takes (at_of R.rest de.old)) }
    {
        let attach = Attach::read_list(alloc, de)?;
        Ok(Boxed::new(alloc, attach)?)
    }
}

impl Serialize for Attach {
    ghost item = { attach_item };

    fn is_null(&self) -> bool {
        false
    }

    fn serialize<W: Sink>(&self, s: &mut Serializer<W>) -> Result<(), serde_amqp_item::Error> {
        serialize_record(
            s,
            CODE,
            &row![
                &self.name,
                self.handle,
                self.role,
                OrDefault(self.snd_settle_mode),
                OrDefault(self.rcv_settle_mode),
                &self.source,
                &self.target,
                &self.unsettled,
                BoolOr::<false>(self.incomplete_unsettled),
                &self.initial_delivery_count,
                &self.max_message_size,
                Multiple(&self.offered_capabilities),
                Multiple(&self.desired_capabilities),
                &self.properties
            ],
        )
    }
}

impl Deserialize for Attach {
    ghost item = { attach_item };

    ghost take = { attach_taken };

    #[tactic(auto, unfolding(serde_amqp_de::specs::Takes::record_taken))]
    fn absent(_alloc: Global) -> Option<Attach> {
        None
    }

    fn read<R: Read>(
        alloc: Global,
        de: &mut Deserializer<R>,
    ) -> Result<Attach, serde_amqp_item::Error> {
        read_composite(alloc, de, CODE, NAME)
    }

    ghost decided = { attach_decided };
}

impl RoundTrip for Attach {
    ghost same = { λ _. refl };

    ghost again = { attach_again };
}

impl Faithful for Attach {
    ghost faithful = { attach_same };
}

impl NeverNull for Attach {
    ghost present = { λ _. refl };
}
