//! The properties of a link, which both ends give (part 2, 2.7.3).
ghost use Rattle.std.specs.Prelude.{◌≡◌, IfOk, OnOk, OnErr};
ghost use Rattle.std.specs.Str.{bytes_eq};
ghost use Rattle.serde_amqp_values.specs.Pairs.{all_inserted};
ghost use Rattle.amqp_link_base.specs.Properties.{merged};

use amqp_session_types::Boxed;
use amqp_session_types::definitions::Fields;
use indexmap::map::Iter;
use serde_amqp_types::Symbol;
use serde_amqp_values::RawValue;
use std::alloc::{AllocError, Global};

/// The own properties with the peer's: a name that both have keeps its place and has the peer's value, and names that
/// only the peer has stand behind, in its order. It is refused where there is no memory for them.
pub fn merged_properties(
    alloc: Global,
    own: &Option<Boxed<Fields>>,
    peer: &Option<Boxed<Fields>>,
) -> Result<Option<Boxed<Fields>>, AllocError>
    ensures { IfOk result (λ properties. properties ≡ merged own.now peer.now) }
{
    match (own, peer) {
        (_, None) => Ok(own.clone()?),
        (None, Some(_)) => Ok(peer.clone()?),
        (Some(own), Some(peer)) => Ok(Some(joined(alloc, own, peer)?)),
    }
}

/// Merges the peer's properties into the own ones: a name that both have keeps its place and has the peer's value, and
/// names that only the peer has stand behind, in its order. It is refused where there is no memory for them, and nothing
/// changes then.
pub fn merge_properties(
    alloc: Global,
    own: &mut Option<Boxed<Fields>>,
    peer: &Option<Boxed<Fields>>,
) -> Result<(), AllocError>
    ensures ok { OnOk result (own.new ≡ merged own.old peer.now) }
    ensures err { OnErr result (own.new ≡ own.old) }
{
    *own = merged_properties(alloc, own, peer)?;
    Ok(())
}

/// The own properties with the peer's put in one after the other.
fn joined(alloc: Global, own: &Fields, peer: &Fields) -> Result<Boxed<Fields>, AllocError>
    ensures { IfOk result (λ properties. properties ≡ all_inserted bytes_eq own.now peer.now) }
{
    let mut properties = own.clone()?;
    insert_all(&mut properties, peer.iter())?;
    Boxed::new(alloc, properties)
}

/// Puts the properties in that are left, one after the other. After an error some of them may be in.
fn insert_all(properties: &mut Fields, more: Iter<'_, Symbol, RawValue>) -> Result<(), AllocError>
    ensures { OnOk result (properties.new ≡ all_inserted bytes_eq properties.old more.entry) }
{
    let mut more = more;
    while let Some((name, value)) = more.next() {
        let value = value.clone()?;
        properties.insert(name.clone()?, value)?;
    }
    Ok(())
}
