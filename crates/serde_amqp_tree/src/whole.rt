//! The canonical text of the value that bytes are.
ghost use Rattle.std.specs.Prelude.{◌≡◌, ◌+◌, [], List, reverse, if◌then◌else◌, IfOk, OnOk, Some, None};
ghost use Rattle.serde_amqp_item.specs.Wire.{row_at};
ghost use Rattle.serde_amqp_tree.specs.declared.finished.Finished.{Finished};
ghost use Rattle.serde_amqp_tree.specs.Tree.{IsCanonical, Closes, Finishes, CutsConstructor, IsOne, wide_byte};

use crate::backwards::Backwards;
use crate::compound::{
    NOTHING, finish_array, finish_described, finish_empty_list, finish_list, finish_map,
};
use crate::cutting::{cut, cut_size};
use crate::finished::{Finished, Lengths};
use crate::scalar::put_scalar;
use crate::taking::{Token, tokens};
use serde_amqp_item::{EncodingCodes, Error};
use std::alloc::Global;

/// The canonical text of the value that takes all of the bytes: these are a wire form, with counts of at most
/// 65,536, of an item without raw ones, and its canonical text is answered (part 1, section 1.6).
///
/// Errors: `Memory`; those of [`tokens`]; `InvalidLength` for a text with a size of 2^32 or more. The answer is
/// proved, and of the errors nothing: neither which one comes, nor that one comes only where there is no text.
#[tactic(auto, using(crate::proofs::Finishings::finishing))]
pub fn canonical(alloc: Global, bytes: &[u8]) -> Result<Vec<u8>, Error>
    ensures { IfOk result (λ text. IsCanonical bytes.now text.items) }
{
    let tokens = tokens(alloc, bytes)?;
    let mut stack = Vec::new(alloc);
    let mut text = Backwards::new(alloc);
    let rest = finish_all(bytes, tokens, &mut stack, &mut text)?;
    check_end(rest, &stack)?;
    Ok(text.into_text())
}

/// Finishes the values of all tokens, the last first.
#[tactic(auto, using(crate::proofs::Finishings::finishing))]
fn finish_all<'a>(
    bytes: &'a [u8],
    tokens: Vec<Token>,
    stack: &mut Vec<Finished>,
    text: &mut Backwards,
) -> Result<&'a [u8], Error>
    ensures { IfOk result (λ r. Finishes bytes.now r.now (reverse stack.old.items)
        (reverse stack.new.items) text.old text.new) }
{
    let mut front = bytes;
    for token in tokens.iter().rev() {
        front = finish(front, *token, stack, text)?;
    }
    Ok(front)
}

/// Refuses bytes that are left, and what isn't one value with a constructor of its own.
#[tactic(auto, using(crate::proofs::Finishings::finishing))]
fn check_end(front: &[u8], stack: &[Finished]) -> Result<(), Error>
    ensures empty { OnOk result (front.now ≡ []) }
    ensures one { OnOk result (IsOne stack.now) }
{
    if !front.is_empty() {
        return Err(Error::InvalidLength);
    }
    match stack {
        [value] => match value.inherited {
            None => Ok(()),
            Some(_) => Err(Error::InvalidFormatCode),
        },
        _ => Err(Error::InvalidLength),
    }
}

/// Finishes the value of the last token that isn't finished.
#[tactic(auto, using(crate::proofs::Finishings::finishing))]
fn finish<'a>(
    front: &'a [u8],
    token: Token,
    stack: &mut Vec<Finished>,
    text: &mut Backwards,
) -> Result<&'a [u8], Error>
    ensures { IfOk result (λ r. Finishes front.now r.now (reverse stack.old.items)
        (reverse stack.new.items) text.old text.new) }
{
    let before = text.len();
    let (mid, parts) = finish_body(front, token, stack, text)?;
    let rest = cut_constructor(mid, token)?;
    let bytes = grown(front.len(), rest.len(), parts.bytes)?;
    let length = spanned(before, text.len(), parts.text)?;
    stack.push(Finished {
        inherited: inherited_code(token),
        bytes,
        text: length,
    })?;
    Ok(rest)
}

/// The constructor, if it is inherited.
fn inherited_code(token: Token) -> Option<EncodingCodes>
    ensures { result ≡ (if token.inherited then Some token.code else None) }
{
    if token.inherited {
        return Some(token.code);
    }
    None
}

/// How many bytes a value has: what was cut off, and its parts.
fn grown(front: usize, rest: usize, parts: usize) -> Result<usize, Error>
    ensures { IfOk result (λ n. n + rest ≡ front + parts) }
{
    let Some(head) = front.checked_sub(rest) else {
        return Err(Error::InvalidLength);
    };
    let Some(all) = head.checked_add(parts) else {
        return Err(Error::InvalidLength);
    };
    Ok(all)
}

/// How many bytes its text has: all but those that were there, its parts aside.
fn spanned(before: usize, now: usize, parts: usize) -> Result<usize, Error>
    ensures { IfOk result (λ n. n + before ≡ now + parts) }
{
    grown(now, before, parts)
}

/// Cuts off the constructor, if the value has one of its own.
#[tactic(auto, using(crate::proofs::Finishings::finishing))]
fn cut_constructor(front: &[u8], token: Token) -> Result<&[u8], Error>
    ensures { IfOk result (λ r. CutsConstructor token.inherited token.code front.now r.now) }
{
    if token.inherited {
        return Ok(front);
    }
    cut(front, &[token.code.byte()])
}

/// Finishes what stands behind the constructor.
fn finish_body<'a>(
    front: &'a [u8],
    token: Token,
    stack: &mut Vec<Finished>,
    text: &mut Backwards,
) -> Result<(&'a [u8], Lengths), Error>
    ensures { IfOk result (λ r. Closes token.inherited (row_at (Some token.code))
        (wide_byte token.code) r.1 front.now r.0.now (reverse stack.old.items)
        (reverse stack.new.items) text.old text.new) }
{
    match token.code {
        EncodingCodes::DescribedType => finish_described(front, stack, text, token.inherited),
        EncodingCodes::List0 => finish_empty_list(front, text, token.inherited),
        EncodingCodes::List8 => {
            finish_list(front, stack, text, token.inherited, false, token.parts)
        }
        EncodingCodes::List32 => {
            finish_list(front, stack, text, token.inherited, true, token.parts)
        }
        EncodingCodes::Map8 => finish_map(front, stack, text, token.inherited, false, token.parts),
        EncodingCodes::Map32 => finish_map(front, stack, text, token.inherited, true, token.parts),
        EncodingCodes::Array8 => {
            finish_array(front, stack, text, token.inherited, false, token.parts)
        }
        EncodingCodes::Array32 => {
            finish_array(front, stack, text, token.inherited, true, token.parts)
        }
        _ => finish_scalar(front, token, text),
    }
}

/// Finishes a value that holds no other.
#[tactic(auto, using(crate::proofs::Closings::closing))]
fn finish_scalar<'a>(
    front: &'a [u8],
    token: Token,
    text: &mut Backwards,
) -> Result<(&'a [u8], Lengths), Error>
    ensures { IfOk result (λ r. (fs : List Finished) →
        Closes token.inherited (row_at (Some token.code)) (wide_byte token.code) r.1 front.now
        r.0.now fs fs text.old text.new) }
{
    if front.len() < token.start {
        return Err(Error::InvalidLength);
    }
    let (before, content) = front.split_at(token.start);
    put_scalar(text, token.inherited, token.code, content)?;
    let rest = cut_size(before, token.code, content.len())?;
    Ok((rest, NOTHING))
}
