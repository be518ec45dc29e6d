//! The filters that a receiver wants, and those that its peer applies (part 3, 3.5.3 and 3.5.8).
ghost use Rattle.std.specs.Prelude.{◌≡◌, ◌≢◌, ◌++◌, [], IfOk, OnOk, OnErr};
ghost use Rattle.amqp_link_base.specs.Tests.{JudgedBy, first_of};
ghost use Rattle.amqp_link_base.specs.Source.{filter_tests, is_in_place, unsupported, filters_of};

use amqp_link_types::{DesiredFilterNotSupported, ReceiverAttachError};
use amqp_session_types::definitions::FilterSet;
use indexmap::map::Iter;
use serde_amqp_types::{Array, Symbol};
use serde_amqp_values::RawValue;
use std::alloc::{AllocError, Global};

/// What a receiver answers to the filters of the sender's source: all of those that it wants are in place.
#[tactic(auto, using(crate::proofs::Filtering::filters))]
pub(crate) fn verify_filters(
    alloc: Global,
    wanted: &Option<FilterSet>,
    in_place: &Option<FilterSet>,
) -> Result<(), ReceiverAttachError>
    ensures { JudgedBy (first_of (filter_tests wanted.now in_place.now)) result }
{
    let Some(wanted) = wanted else {
        return Ok(());
    };
    let not_supported = unsupported(alloc, wanted, in_place)?;
    if not_supported.is_empty() {
        return Ok(());
    }
    Err(ReceiverAttachError::DesiredFilterNotSupported(DesiredFilterNotSupported { not_supported }))
}

/// The names of the filters that are wanted and not in place, in their order. It is refused where there is no memory for
/// them, and never where there are none.
fn unsupported(
    alloc: Global,
    wanted: &FilterSet,
    in_place: &Option<FilterSet>,
) -> Result<Array<Symbol>, AllocError>
    ensures ok { IfOk result (λ names. names ≡ unsupported wanted.now (filters_of in_place.now)) }
    ensures err { OnErr result (unsupported wanted.now (filters_of in_place.now) ≢ []) }
{
    let mut names = Vec::new(alloc);
    gather(wanted.iter(), in_place, &mut names)?;
    Ok(Array::from(names))
}

/// Puts the names of the filters that are left and not in place behind those that are gathered already.
fn gather(
    wanted: Iter<'_, Symbol, RawValue>,
    in_place: &Option<FilterSet>,
    names: &mut Vec<Symbol>,
) -> Result<(), AllocError>
    ensures ok { OnOk result (names.new.items ≡ names.old.items
        ++ unsupported wanted.entry (filters_of in_place.now)) }
    ensures err { OnErr result (unsupported wanted.entry (filters_of in_place.now) ≢ []) }
{
    let mut wanted = wanted;
    while let Some((name, _)) = wanted.next() {
        if !is_in_place(in_place, name) {
            names.push(name.clone()?)?;
        }
    }
    Ok(())
}

/// Whether a filter of this name is in place: it is there, and it isn't null.
fn is_in_place(filters: &Option<FilterSet>, name: &Symbol) -> bool
    ensures { result ≡ is_in_place (filters_of filters.now) name.now }
{
    let Some(filters) = filters else {
        return false;
    };
    match filters.get(name) {
        Some(filter) => !filter.is_null(),
        None => false,
    }
}
