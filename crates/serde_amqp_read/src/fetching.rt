//! Readers of std as sources.
ghost use Rattle.std.specs.Prelude.{◌≡◌, ◌≤◌, ◌<◌, ◌+◌, ◌-◌, ◌∷◌, ◌++◌, [], List, length, take, max, IfOk, IfErr, OnOk};
ghost use Rattle.std.specs.Prelude.{OnErr, MatchOption, MatchResult, refl, Some, true, false};
ghost use Rattle.serde_amqp_item.specs.declared.error.Error.TheVariants.{Io};
ghost use Rattle.serde_amqp_read.specs.Reads.{Unless, Named, Leads, counted, faultless, with_more};
ghost use Rattle.serde_amqp_read.specs.Fetching.{Fetching, unless_failed, fault_unless_failed, left_of, told_as};
ghost use Rattle.serde_amqp_read.specs.Fetching.{broken};

use crate::in_memory::InMemory;
use crate::private::Sealed;
use crate::reader::Read;
use serde_amqp_item::Error;
use std::alloc::Global;
use std::collections::VecDeque;
use std::io::{ErrorKind, Write};
use std::marker::Model;

/// The bytes that are asked of a reader at once.
const PIECE: usize = 256;

/// Reads a reader of std that is in memory. No call reads past the bytes that it needs. An error of the
/// inner reader is `Io` with its kind, but `Other` where that is `UnexpectedEof`, which says that the
/// input ends. A reader that has failed ends.
#[derive(Drop)]
pub struct IoReader<R: InMemory> {
    inner: R,
    /// The bytes that were read from the inner reader and not yet taken.
    fetched: VecDeque<u8>,
    failed: bool,
    consumed: usize,
}

// A clause sees the bytes, how they end, whether the reader has failed, and how many bytes were taken.
impl<R: InMemory> Model for IoReader<R> {
    ghost Value = { Fetching };

    ghost view = { λ r. record {
      failed = r.failed;
      fetched = unless_failed r.failed r.fetched.items;
      behind = unless_failed r.failed (R.bytes r.inner);
      fault = fault_unless_failed r.failed (R.fault r.inner);
      consumed = r.consumed;
    } };
}

impl<R: InMemory> IoReader<R> {
    /// Reads from the reader.
    pub fn new(alloc: Global, inner: R) -> IoReader<R>
        ensures { result ≡ record {
          failed = false;
          fetched = [];
          behind = R.bytes inner;
          fault = R.fault inner;
          consumed = 0;
        } }
    {
        IoReader {
            inner,
            fetched: VecDeque::new(alloc),
            failed: false,
            consumed: 0,
        }
    }

    /// The inner reader, and the bytes that were fetched from it and not yet taken, which stand in front
    /// of those that it still has. Of a reader that has failed nothing is said.
    pub fn into_parts(self) -> (R, VecDeque<u8>)
        ensures fetched { self.failed ≡ false → result.1.items ≡ self.fetched }
        ensures behind { self.failed ≡ false → R.bytes result.0 ≡ self.behind }
        ensures fault { self.failed ≡ false → R.fault result.0 ≡ self.fault }
    {
        (self.inner, self.fetched)
    }

    /// The inner reader, where all bytes that were fetched from it were taken.
    ///
    /// Errors: the reader itself, exactly where a byte was fetched and not yet taken, or where it has failed.
    pub fn into_inner(self) -> Result<R, IoReader<R>>
        ensures { MatchResult result
            (λ inner. (self.failed ≡ false) × (self.fetched ≡ []) × (R.bytes inner ≡ self.behind) × (R.fault inner ≡ self.fault))
            (λ reader. (reader ≡ self) × (self.failed ≡ false → self.fetched ≡ [] → ⊥)) }
    {
        if self.failed {
            return Err(self);
        }
        if !self.fetched.is_empty() {
            return Err(self);
        }
        Ok(self.inner)
    }

    /// Takes the first of the bytes that were fetched; none where all of them were taken.
    pub fn pop_first(&mut self) -> Option<u8>
        ensures { MatchOption result ((self.old.fetched ≡ []) × (self.new ≡ self.old))
            (λ b. (self.old.fetched ≡ b ∷ self.new.fetched) × (self.new.behind ≡ self.old.behind)
            × (self.new.failed ≡ self.old.failed) × (self.new.fault ≡ self.old.fault)
            × (self.new.consumed ≡ with_more self.old.consumed 1)) }
    {
        if self.failed {
            return None;
        }
        let first = self.fetched.pop_front()?;
        self.consumed = self.consumed.saturating_add(1);
        Some(first)
    }

    /// Fetches until so many bytes are fetched and not yet taken. The bytes that are left stay the same.
    ///
    /// Errors: `Io` where fewer bytes are left; `Memory`. Nothing is left then.
    pub fn fill_buffer(&mut self, count: usize) -> Result<(), Error>
        ensures same { OnOk result (left_of self.new ≡ left_of self.old) }
        ensures len { OnOk result (length self.new.fetched ≡ max count (length self.old.fetched)) }
        ensures kept { OnOk result ((self.new.failed ≡ self.old.failed)
            × (self.new.fault ≡ self.old.fault)) }
        ensures end { Unless faultless result (length (left_of self.old) < count) }
        ensures named { IfErr result (Named (told_as self.old.fault)) }
        ensures failed { OnErr result (self.new ≡ broken self.old) }
        ensures uncounted { self.new.consumed ≡ self.old.consumed }
    {
        if self.failed && count > 0 {
            return Err(Error::Io(ErrorKind::UnexpectedEof));
        }
        let result = fetch(&mut self.inner, &mut self.fetched, count);
        self.failed = self.failed || result.is_err();
        result
    }

    /// Takes as many bytes as the buffer has, without counting them.
    fn take_into(&mut self, buffer: &mut [u8]) -> Result<(), Error>
        ensures ok { OnOk result (left_of self.old ≡ buffer.new ++ left_of self.new) }
        ensures len { length buffer.new ≡ length buffer.old }
        ensures end { IfErr result (λ e. (e ≡ told_as self.old.fault)
            × (length (left_of self.old) < length buffer.old)) }
        ensures kept { (self.new.failed ≡ self.old.failed) × (self.new.fault ≡ self.old.fault) }
        ensures ahead { length self.new.fetched ≡ length self.old.fetched - length buffer.old }
        ensures uncounted { self.new.consumed ≡ self.old.consumed }
    {
        if self.failed && buffer.len() > 0 {
            return Err(Error::Io(ErrorKind::UnexpectedEof));
        }
        let at_hand = self.fetched.len().min(buffer.len());
        let (front, behind) = buffer.split_at_mut(at_hand);
        fill(&mut self.fetched, front)?;
        fill(&mut self.inner, behind)
    }

    /// Takes so many bytes, without counting them.
    fn take_onto(&mut self, count: usize, bytes: &mut Vec<u8>) -> Result<(), Error>
        ensures ok { OnOk result (bytes.new.items ++ left_of self.new ≡ bytes.old.items
            ++ left_of self.old) }
        ensures len { OnOk result (length bytes.new.items ≡ length bytes.old.items + count) }
        ensures kept { Leads bytes.old.items bytes.new.items }
        ensures end { Unless faultless result (length (left_of self.old) < count) }
        ensures named { IfErr result (Named (told_as self.old.fault)) }
        ensures same { (self.new.failed ≡ self.old.failed) × (self.new.fault ≡ self.old.fault) }
        ensures ahead { OnOk result (length self.new.fetched ≡ length self.old.fetched - count) }
        ensures uncounted { self.new.consumed ≡ self.old.consumed }
    {
        let mut piece = [0; PIECE];
        let mut missing = count;
        while missing > 0 {
            let wanted = missing.min(PIECE);
            let part = &mut piece[..wanted];
            self.take_into(part)?;
            bytes.extend_from_slice(part)?;
            missing -= wanted;
        }
        Ok(())
    }
}

/// Fills the buffer from a reader.
#[tactic(auto, using(crate::proofs::Known::filling))]
fn fill<S: InMemory>(source: &mut S, buffer: &mut [u8]) -> Result<(), Error>
    ensures ok { OnOk result (S.bytes source.old ≡ buffer.new ++ S.bytes source.new) }
    ensures len { length buffer.new ≡ length buffer.old }
    ensures end { IfErr result (λ e. (e ≡ told_as (S.fault source.old))
        × (length (S.bytes source.old) < length buffer.old)) }
    ensures lasting { S.fault source.new ≡ S.fault source.old }
{
    let mut at = 0;
    while at < buffer.len() {
        match source.give(&mut buffer[at..]) {
            Ok(0) => return Err(Error::Io(ErrorKind::UnexpectedEof)),
            Ok(count) => at += count,
            Err(error) => return Err(fault_of(error.kind())),
        }
    }
    Ok(())
}

/// What an error of an inner reader is told as.
fn fault_of(kind: ErrorKind) -> Error
    ensures { result ≡ told_as (Some kind) }
{
    match kind {
        ErrorKind::UnexpectedEof => Error::Io(ErrorKind::Other),
        kind => Error::Io(kind),
    }
}

/// Fetches until so many bytes are in the queue.
fn fetch<S: InMemory>(source: &mut S, fetched: &mut VecDeque<u8>, count: usize) -> Result<(), Error>
    ensures same { OnOk result (fetched.new.items ++ S.bytes source.new ≡ fetched.old.items
        ++ S.bytes source.old) }
    ensures len { OnOk result (length fetched.new.items ≡ max count (length fetched.old.items)) }
    ensures end { Unless faultless result
        (length (fetched.old.items ++ S.bytes source.old) < count) }
    ensures named { IfErr result (Named (told_as (S.fault source.old))) }
    ensures lasting { S.fault source.new ≡ S.fault source.old }
{
    let mut piece = [0; PIECE];
    while fetched.len() < count {
        let wanted = (count - fetched.len()).min(PIECE);
        let part = &mut piece[..wanted];
        fill(source, part)?;
        if fetched.write(part).is_err() {
            return Err(Error::Memory);
        }
    }
    Ok(())
}

/// The front of the queue, as many bytes as the buffer has.
fn copy_front(fetched: &VecDeque<u8>, buffer: &mut [u8])
    requires { length buffer.old ≤ length fetched.now.items }
    ensures { buffer.new ≡ take (length buffer.old) fetched.now.items }
{
    for (index, slot) in buffer.iter_mut().enumerate() {
        if let Some(byte) = fetched.get(index) {
            *slot = *byte;
        }
    }
}

impl<R: InMemory> Sealed for IoReader<R> {}

impl<R: InMemory> Read for IoReader<R> {
    ghost rest = { left_of };

    ghost faulty = { faultless };

    ghost known = { λ _. refl };

    ghost consumed = { λ r. r.consumed };

    ghost ending = { λ r. told_as r.fault };

    ghost ahead = { λ r. length r.fetched };

    fn bytes_consumed(&self) -> usize {
        self.consumed
    }

    fn peek(&mut self) -> Result<u8, Error> {
        let mut byte = [0];
        self.peek_bytes(&mut byte)?;
        Ok(byte[0])
    }

    #[tactic(auto, using(crate::proofs::Fronts::leading))]
    fn peek_bytes(&mut self, buffer: &mut [u8]) -> Result<(), Error> {
        self.fill_buffer(buffer.len())?;
        if self.failed {
            return Ok(());
        }
        copy_front(&self.fetched, buffer);
        Ok(())
    }

    fn next(&mut self) -> Result<u8, Error> {
        let mut byte = [0];
        self.read_exact(&mut byte)?;
        Ok(byte[0])
    }

    fn read_exact(&mut self, buffer: &mut [u8]) -> Result<(), Error> {
        let result = self.take_into(buffer);
        match result {
            Ok(()) => self.consumed = self.consumed.saturating_add(buffer.len()),
            Err(_) => self.failed = true,
        }
        result
    }

    fn append_bytes(&mut self, count: usize, bytes: &mut Vec<u8>) -> Result<(), Error> {
        let before = bytes.len();
        let result = self.take_onto(count, bytes);
        match result {
            Ok(()) => self.consumed = self.consumed.saturating_add(count),
            Err(_) => {
                bytes.truncate(before);
                self.failed = true;
            }
        }
        result
    }

    fn fail(&mut self) {
        self.failed = true;
    }
}
