//! Two endpoints in memory. A client orders at a shop, which gives credit for one message and accepts it.
#![tactic(auto)]

use amqp_endpoint::{
    AmqpValue, ApplicationProperties, CallerError, Endpoint, EndpointError, Event, LinkAsked,
    LinkSettings, LinkedSessions, Message, MessageSections, OrderedMap, Program, RawValue,
    Sendable, SessionAsked, Settings, Source, Target, Text, serve, turn, write_out,
};
use std::alloc::{AllocError, Global};
use std::io::BufWriter;

/// What a client orders.
#[derive(Drop)]
struct Order {
    what: Text,
    pieces: u32,
}

/// The shop's part: it accepts what a client asks for, and keeps the orders that come.
#[derive(Drop)]
struct Shop {
    alloc: Global,
    orders: Vec<Order>,
}

impl Program<LinkedSessions> for Shop {
    fn react(&mut self, endpoint: &mut Endpoint, event: Event) -> Result<(), EndpointError> {
        match event {
            Event::SessionAsked(asked) => self.begin(endpoint, &asked),
            Event::LinkAsked(asked) => self.attach(endpoint, asked),
            Event::Message(came) => self.take(endpoint, &came),
            _ => Ok(()),
        }
    }
}

impl Shop {
    fn begin(&self, endpoint: &mut Endpoint, asked: &SessionAsked) -> Result<(), EndpointError> {
        endpoint.accept_begin(asked.channel)?;
        Ok(())
    }

    /// Attaches the other end of the link, and gives credit for one message.
    fn attach(&self, endpoint: &mut Endpoint, asked: LinkAsked) -> Result<(), EndpointError> {
        let (source, target) = termini(self.alloc)?;
        let settings = LinkSettings::receiver(asked.attach.into_inner().name, source, target);
        let link = endpoint.attach_receiver(asked.session, &settings)?.link;
        endpoint.grant(link, 1)?;
        Ok(())
    }

    /// Reads an order from a message whose body is a text, and accepts the message.
    fn take(&mut self, endpoint: &mut Endpoint, came: &Message) -> Result<(), EndpointError> {
        let message = came.delivery.read::<AmqpValue<Text>>(self.alloc)?;
        let pieces = pieces_of(self.alloc, &message)?;
        self.orders.push(Order {
            what: message.body.0,
            pieces,
        })?;
        endpoint.accept(came.link, came.message)
    }
}

/// How many pieces the properties of the message say: one where they say nothing.
fn pieces_of(
    alloc: Global,
    message: &MessageSections<AmqpValue<Text>>,
) -> Result<u32, EndpointError> {
    let Some(properties) = &message.application_properties else {
        return Ok(1);
    };
    let Some(pieces) = properties.0.get(&Text::from_str(alloc, "pieces")?) else {
        return Ok(1);
    };
    Ok(pieces.read::<u32>(alloc)?)
}

/// The message that orders this: a text, and a property of the application.
fn message_of(alloc: Global, order: Order) -> Result<Sendable<AmqpValue<Text>>, EndpointError> {
    let mut properties = OrderedMap::new(alloc);
    let pieces = RawValue::of(alloc, &order.pieces)?;
    properties.insert(Text::from_str(alloc, "pieces")?, pieces)?;
    let mut sendable = Sendable::from(order.what);
    sendable.message.application_properties = Some(ApplicationProperties(properties));
    Ok(sendable)
}

/// Where messages of the link come from and go to.
fn termini(alloc: Global) -> Result<(Source, Target), AllocError> {
    let source = Source::of(Text::from_str(alloc, "client")?);
    let target = Target::of(Text::from_str(alloc, "orders")?);
    Ok((source, target))
}

/// An endpoint with this container-id, which has its protocol header queued.
fn connected(alloc: Global, container_id: &str) -> Result<Endpoint, EndpointError> {
    let settings = Settings::new(Text::from_str(alloc, container_id)?);
    let mut endpoint = Endpoint::new(alloc, settings)?;
    endpoint.connect()?;
    Ok(endpoint)
}

/// The endpoints of the client and of the shop, and the shop's part.
#[derive(Drop)]
struct Ends {
    alloc: Global,
    client: Endpoint,
    server: Endpoint,
    shop: Shop,
}

impl Ends {
    /// Carries to the shop what the client has queued, and back what the shop answers: what the client is told by that.
    /// The writers are buffered, as those of a stream are, so what isn't flushed doesn't arrive.
    fn talk(&mut self) -> Result<Vec<Event>, CallerError> {
        let mut output = Vec::new(self.alloc);
        let mut input = [0u8; 4096];
        let mut asked = BufWriter::new(self.alloc, Vec::new(self.alloc))?;
        let mut answered = BufWriter::new(self.alloc, Vec::new(self.alloc))?;
        write_out(&mut self.client, &mut output, &mut asked)?;
        let mut reader = asked.get_ref().as_slice();
        turn(
            &mut self.server,
            &mut self.shop,
            &mut output,
            &mut input,
            &mut reader,
            &mut answered,
        )?;
        write_out(&mut self.server, &mut output, &mut answered)?;
        Ok(self.client.feed(answered.get_ref().as_slice()).events)
    }

    /// Carries to the shop what the client has queued, and serves the shop's end until the connection is over.
    fn finish(&mut self) -> Result<(), CallerError> {
        let mut output = Vec::new(self.alloc);
        let mut asked = Vec::new(self.alloc);
        let mut answered = Vec::new(self.alloc);
        write_out(&mut self.client, &mut output, &mut asked)?;
        let mut reader = asked.as_slice();
        serve(
            self.alloc,
            &mut self.server,
            &mut self.shop,
            &mut reader,
            &mut answered,
        )?;
        self.client.feed(answered.as_slice());
        Ok(())
    }
}

/// The client's part: it begins a session, attaches a link, and orders once more than it has credit for.
fn buy(rt: &impl Print, ends: &mut Ends) -> Result<(), CallerError> {
    let alloc = ends.alloc;
    ends.talk()?;
    let session = ends.client.begin()?;
    ends.talk()?;
    let (source, target) = termini(alloc)?;
    let settings = LinkSettings::sender(Text::from_str(alloc, "orders")?, source, target);
    let link = ends.client.attach_sender(session, &settings)?.link;
    ends.talk()?;
    println!(rt; "credit: {}", ends.client.credit(link)?)?;
    let chairs = Order {
        what: Text::from_str(alloc, "chairs")?,
        pieces: 2,
    };
    let message = message_of(alloc, chairs)?;
    ends.client.send(link, &message)?;
    if let Err(refusal) = ends.client.send(link, &message) {
        println!(rt; "refused: {refusal:?}, {refusal}")?;
    }
    for event in ends.talk()?.iter() {
        if let Event::Outcome(outcome) = event {
            println!(rt; "outcome: {:?}", outcome.result)?;
        }
    }
    ends.client.close()?;
    ends.finish()?;
    println!(rt; "closed: {}", ends.client.is_closed())?;
    Ok(())
}

fn main(rt: HostRuntime) -> Result<(), CallerError> {
    let alloc = rt.alloc();
    let orders = Vec::new(alloc);
    let mut ends = Ends {
        alloc,
        client: connected(alloc, "client")?,
        server: connected(alloc, "shop")?,
        shop: Shop { alloc, orders },
    };
    buy(&rt, &mut ends)?;
    for order in ends.shop.orders.iter() {
        println!(rt; "ordered: {} {}", order.pieces, order.what)?;
    }
    Ok(())
}
