//! Values that are finished, the first of them on top.
ghost use Rattle.std.specs.Prelude.{◌≡◌, ◌∷◌, ◌+◌, reverse, true, IfOk};
ghost use Rattle.serde_amqp_tree.specs.Tree.{Joins};

use serde_amqp_item::{EncodingCodes, Error};

/// A value that is finished.
#[derive(Debug, Clone, Copy)]
pub(crate) struct Finished {
    /// The constructor that it inherits from its array, if any.
    pub(crate) inherited: Option<EncodingCodes>,
    /// How many bytes it takes.
    pub(crate) bytes: usize,
    /// How many bytes its text has.
    pub(crate) text: usize,
}

/// How long values are together that stand one behind the other.
#[derive(Debug, Clone, Copy)]
pub(crate) struct Lengths {
    pub(crate) bytes: usize,
    pub(crate) text: usize,
}

/// Takes the first so many values off, all of which inherit this.
#[tactic(auto, using(crate::proofs::Joining::joining))]
pub(crate) fn join(
    stack: &mut Vec<Finished>,
    count: usize,
    inherited: Option<EncodingCodes>,
) -> Result<Lengths, Error>
    ensures { IfOk result (λ l. Joins inherited count l (reverse stack.old.items)
        (reverse stack.new.items)) }
{
    let mut lengths = Lengths { bytes: 0, text: 0 };
    for _ in 0..count {
        let value = pop(stack, inherited)?;
        lengths = longer(lengths, value)?;
    }
    Ok(lengths)
}

/// The lengths with one value more.
fn longer(lengths: Lengths, value: Finished) -> Result<Lengths, Error>
    ensures bytes { IfOk result (λ l. l.bytes ≡ lengths.bytes + value.bytes) }
    ensures text { IfOk result (λ l. l.text ≡ lengths.text + value.text) }
{
    let Some(bytes) = lengths.bytes.checked_add(value.bytes) else {
        return Err(Error::Memory);
    };
    let Some(text) = lengths.text.checked_add(value.text) else {
        return Err(Error::Memory);
    };
    Ok(Lengths { bytes, text })
}

/// Takes the first value off, which inherits this.
#[tactic(auto, using(crate::proofs::Joining::joining))]
fn pop(stack: &mut Vec<Finished>, inherited: Option<EncodingCodes>) -> Result<Finished, Error>
    ensures inherits { IfOk result (λ f. f.inherited ≡ inherited) }
    ensures first { IfOk result (λ f. reverse stack.old.items ≡ f ∷ reverse stack.new.items) }
{
    let Some(value) = stack.pop() else {
        return Err(Error::InvalidLength);
    };
    if is_same(value.inherited, inherited) {
        return Ok(value);
    }
    Err(Error::InvalidFormatCode)
}

/// Are the constructors the same, or is there none?
#[tactic(auto, using(crate::proofs::Joining::joining))]
fn is_same(one: Option<EncodingCodes>, other: Option<EncodingCodes>) -> bool
    ensures { result ≡ true → one ≡ other }
{
    match one {
        None => other.is_none(),
        Some(code) => match other {
            None => false,
            Some(wanted) => code.byte() == wanted.byte(),
        },
    }
}
