//! How an Attach lists the unsettled deliveries of its sender (part 2, 2.7.3).
ghost use Rattle.std.specs.Prelude.{◌≡◌, ◌↔◌, ◌≤◌, ◌++◌, ◌∷◌, [], take, length, true, false, Option, None, IsTrue};
ghost use Rattle.std.specs.Prelude.{IfOk, OnOk, OnErr, IfErr};
ghost use Rattle.std.specs.Map.{lookup};
ghost use Rattle.std.specs.Str.{bytes_eq};
ghost use Rattle.serde_amqp_item.specs.Canon.{canon};
ghost use Rattle.amqp_link_unsettled.specs.Listing.{entries_listed, or_null, or_empty, with_first, FitsText, FitsFrame};
ghost use Rattle.amqp_link_unsettled.specs.Listing.{Lists, FitsNowhere};
ghost use Rattle.amqp_link_unsettled.specs.declared.listing.ListError.TheVariants.{TooLarge};
ghost use Rattle.amqp_session_states.specs.declared.delivery_state.DeliveryState.{DeliveryState};

use crate::map::UnsettledMap;
use crate::message::UnsettledMessage;
use crate::slot::Numbered;
use amqp_session_performatives::Attach;
use amqp_session_states::DeliveryState;
use amqp_session_types::DeliveryTag;
use serde_amqp_ser::{Serialize, serialized_size};
use serde_amqp_values::OrderedMap;
use std::alloc::{AllocError, Global};
use thiserror::Error;

/// Unsettled deliveries as an Attach lists them: their tags, with a state or null (part 2, 2.7.3).
pub type UnsettledList = OrderedMap<DeliveryTag, Option<DeliveryState>>;

/// How many bytes of a frame stand before its performative (part 2, 2.3.1).
const HEAD: usize = 8;

/// Why the unsettled deliveries aren't listed.
#[derive(Debug, Clone, Copy, PartialEq, Eq, Error)]
pub enum ListError {
    /// The Attach doesn't fit the frame even without any of them.
    #[error("the attach does not fit a frame")]
    TooLarge,
    /// There was no memory.
    #[error("out of memory")]
    Memory,
}

impl From<AllocError> for ListError {
    ghost use Rattle.amqp_link_unsettled.specs.declared.listing.ListError.TheVariants.{Memory};

    ghost from_gives = { λ _ e. e ≡ Memory };

    fn from(_error: AllocError) -> Self {
        ListError::Memory
    }
}

/// What is listed as unsettled with a state, or with null.
pub trait Listed {
    /// The state that it is listed with.
    ghost listed: { Self → Option DeliveryState };

    /// The state that it is listed with. It is refused where there is no memory for it.
    fn listed_state(&self) -> Result<Option<DeliveryState>, AllocError>
        ensures { IfOk result (λ s. s ≡ listed self.now) };
}

impl Listed for UnsettledMessage {
    ghost listed = { λ m. m.state };

    fn listed_state(&self) -> Result<Option<DeliveryState>, AllocError> {
        Ok(self.state.clone()?)
    }
}

impl Listed for Option<DeliveryState> {
    ghost listed = { λ s. s };

    fn listed_state(&self) -> Result<Option<DeliveryState>, AllocError> {
        Ok(self.clone()?)
    }
}

impl<M: Listed + Numbered + Drop> UnsettledMap<M> {
    /// All deliveries as they are listed, in their order. It is refused where there is no memory for them.
    pub fn list(&self, alloc: Global) -> Result<UnsettledList, AllocError>
        ensures { IfOk result (λ l. l ≡ entries_listed M.listed self.now.entries) }
    {
        let mut list = OrderedMap::new(alloc);
        for (tag, message) in self.iter() {
            add(&mut list, tag, message)?;
        }
        Ok(list)
    }
}

/// Adds a delivery to a list.
fn add<M: Listed>(
    list: &mut UnsettledList,
    tag: &DeliveryTag,
    message: &M,
) -> Result<(), AllocError>
    requires { lookup (bytes_eq tag.now) list.old ≡ None }
    ensures { OnOk result (list.new ≡ list.old ++ (tag.now, M.listed message.now) ∷ []) }
{
    let state = message.listed_state()?;
    let tag = tag.clone()?;
    list.insert(tag, state)?;
    Ok(())
}

/// Lists the deliveries of a map in an Attach: all of them, or where that doesn't fit a frame of so many bytes
/// the first half of them, or the first quarter, and so on. Where some are left off the Attach says that its list
/// is incomplete; where none are listed the list is null.
///
/// Errors: `TooLarge` exactly where the Attach doesn't fit even without any of them, and `Memory`. The Attach is as
/// before after each of them.
pub fn list_unsettled<M: Listed + Numbered + Drop>(
    alloc: Global,
    attach: &mut Attach,
    map: &UnsettledMap<M>,
    limit: u32,
) -> Result<(), ListError>
    ensures ok { OnOk result (Lists limit attach.old (entries_listed M.listed map.now.entries)
        attach.new) }
    ensures too_large { IfErr result (λ e. e ≡ TooLarge
        → FitsNowhere limit attach.old (entries_listed M.listed map.now.entries)) }
    ensures err { OnErr result (attach.new ≡ attach.old) }
{
    let list = map.list(alloc)?;
    list_entries(attach, list, limit)
}

/// Lists these deliveries in an Attach, as [`list_unsettled`] does. It takes no memory.
///
/// Errors: `TooLarge` exactly where the Attach doesn't fit even without any of them. It is as before then.
pub fn list_entries(attach: &mut Attach, list: UnsettledList, limit: u32) -> Result<(), ListError>
    ensures ok { OnOk result (Lists limit attach.old list attach.new) }
    ensures refused { IfErr result (λ e. (e ≡ TooLarge) × FitsNowhere limit attach.old list) }
    ensures err { OnErr result (attach.new ≡ attach.old) }
{
    let unsettled = attach.unsettled.take();
    let incomplete = attach.incomplete_unsettled;
    if list_first(attach, list, limit) {
        return Ok(());
    }
    attach.unsettled = unsettled;
    attach.incomplete_unsettled = incomplete;
    Err(ListError::TooLarge)
}

/// An Attach with these deliveries listed, as [`list_unsettled`] does. It takes no memory.
///
/// Errors: `TooLarge` exactly where the Attach doesn't fit even without any of them.
pub fn with_entries(attach: Attach, list: UnsettledList, limit: u32) -> Result<Attach, ListError>
    ensures ok { IfOk result (λ new. Lists limit attach list new) }
    ensures refused { IfErr result (λ e. (e ≡ TooLarge) × FitsNowhere limit attach list) }
{
    let mut attach = attach;
    list_entries(&mut attach, list, limit)?;
    Ok(attach)
}

/// Lists all entries, or half, a quarter, and so on of them, and tells whether the Attach fits so. Where it never
/// does the list is left empty.
fn list_first(attach: &mut Attach, list: UnsettledList, limit: u32) -> bool
    ensures fits { IsTrue result → Lists limit attach.old list attach.new }
    ensures none { result ≡ false → FitsNowhere limit attach.old list }
    ensures others { result ≡ false → attach.new
        ≡ record attach.old { unsettled = None; incomplete_unsettled = (attach.new).incomplete_unsettled } }
{
    let mut count = list.len();
    list_all(attach, list);
    loop {
        if fits_frame(attach, limit) {
            return true;
        }
        if count == 0 {
            return false;
        }
        count /= 2;
        shorten(attach, count);
    }
}

/// Lists all entries.
fn list_all(attach: &mut Attach, list: UnsettledList)
    ensures { attach.new ≡ with_first attach.old list (length list) }
{
    attach.incomplete_unsettled = false;
    attach.unsettled = if list.is_empty() { None } else { Some(list) };
}

/// Leaves so many of the entries that are listed, and tells that the list is incomplete.
fn shorten(attach: &mut Attach, count: usize)
    requires { count ≤ length (or_empty (attach.old).unsettled) }
    ensures { attach.new ≡ record attach.old {
      unsettled = or_null (take count (or_empty (attach.old).unsettled));
      incomplete_unsettled = true;
    } }
{
    shorten_list(&mut attach.unsettled, count);
    attach.incomplete_unsettled = true;
}

/// Leaves so many entries of a list, which is null without any.
fn shorten_list(unsettled: &mut Option<UnsettledList>, left: usize)
    requires { left ≤ length (or_empty unsettled.old) }
    ensures { unsettled.new ≡ or_null (take left (or_empty unsettled.old)) }
{
    if left == 0 {
        *unsettled = None;
        return;
    }
    if let Some(list) = unsettled {
        list.as_inner_mut().truncate(left);
    }
}

/// Whether an Attach fits a frame of so many bytes.
fn fits_frame(attach: &Attach, limit: u32) -> bool
    ensures { IsTrue result ↔ FitsFrame limit attach.now }
{
    fits_text(attach, limit)
}

/// Whether a performative fits a frame of so many bytes (part 2, 2.3.1). It takes no memory.
pub fn fits_text<T: Serialize>(value: &T, limit: u32) -> bool
    ensures { IsTrue result ↔ FitsText limit (canon (T.item value.now)) }
{
    match serialized_size(value) {
        Ok(size) => size.saturating_add(HEAD) <= limit as usize,
        Err(_) => false,
    }
}
