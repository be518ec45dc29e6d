//! What the accesses share.
ghost use Rattle.std.specs.Prelude.{◌≡◌, ◌≢◌, ◌⊎◌, ◌+◌, ◌∷◌, [], ℕ, List, Bool, true, false, Result, Ok, IfOk, IfErr};
ghost use Rattle.std.specs.Prelude.{OnOk, OnErr, MatchOption, Option, Some, None};
ghost use Rattle.serde_amqp_item.specs.Item.{Item};
ghost use Rattle.serde_amqp_item.specs.Kind.{Kind};
ghost use Rattle.serde_amqp_read.specs.Reads.{Unless};
ghost use Rattle.serde_amqp_de.specs.Reads.{At, Refuses, HasFailed, at_of};
ghost use Rattle.serde_amqp_de.specs.Names.{Names, Named};
ghost use Rattle.serde_amqp_de.specs.Open.{AtEnd, TookNext, NamesEnd};

use crate::deserialize::Deserialize;
use crate::deserializer::Deserializer;
use serde_amqp_item::Error;
use serde_amqp_read::Read;
use std::alloc::Global;

/// An item that holds others, while they are read.
#[derive(Drop)]
pub struct Content<'a, R> {
    /// What reads it.
    pub de: &'a mut Deserializer<R>,
    /// The constructor that the whole inherits, if it does (part 1, section 1.2).
    pub outer: Option<u8>,
    /// How many items were not read, of a map keys and values. After a refusal there is one.
    pub left: usize,
    /// How many bytes will have been read behind the last item, where a size says so.
    pub end: Option<usize>,
}

impl<'a, R: Read> Content<'a, R> {
    /// From here on each call is refused.
    pub(crate) fn fail(&mut self)
        ensures same_reference { self.new.de.ghost_name ≡ self.old.de.ghost_name }
        ensures failed { HasFailed R.rest self.new.de.now }
        ensures left { self.new.left ≢ 0 }
    {
        self.de.fail();
        self.left = 1;
    }

    /// Reads the next item.
    #[tactic(auto, using(crate::proofs::Opened::opening))]
    pub(crate) fn item<T: Deserialize>(&mut self, alloc: Global) -> Result<T, Error>
        ensures same_reference { self.new.de.ghost_name ≡ self.old.de.ghost_name }
        ensures ok { IfOk result (λ v. TookNext R.rest T.take self.old self.new (T.item v)) }
        ensures refused { Unless R.faulty result
            ((self.old.left ≡ 0) ⊎ Refuses T.take self.old.de.now.element
            (at_of R.rest self.old.de.now)) }
        ensures failed { OnErr result (HasFailed R.rest self.new.de.now × (self.new.left ≢ 0)) }
    {
        let Some(left) = self.left.checked_sub(1) else {
            self.fail();
            return Err(Error::SequenceLengthMismatch);
        };
        match T::read(alloc, self.de) {
            Ok(value) => {
                self.left = left;
                Ok(value)
            }
            Err(e) => {
                self.fail();
                Err(e)
            }
        }
    }

    /// Reads the next item; none where no more are left.
    #[tactic(auto, using(crate::proofs::Opened::opening))]
    pub(crate) fn next<T: Deserialize>(&mut self, alloc: Global) -> Result<Option<T>, Error>
        ensures same_reference { self.new.de.ghost_name ≡ self.old.de.ghost_name }
        ensures ok { IfOk result (λ o. MatchOption o ((self.old.left ≡ 0) × (self.new ≡ self.old))
            (λ v. TookNext R.rest T.take self.old self.new (T.item v))) }
        ensures refused { Unless R.faulty result
            ((self.old.left ≢ 0) × Refuses T.take self.old.de.now.element
            (at_of R.rest self.old.de.now)) }
        ensures failed { OnErr result (HasFailed R.rest self.new.de.now × (self.new.left ≢ 0)) }
    {
        if self.left == 0 {
            return Ok(None);
        }
        Ok(Some(self.item(alloc)?))
    }
}

impl<R: Read> Deserializer<R> {
    /// The number of items that a head names, and where they end. Where there is no head the reader fails.
    #[tactic(auto, using(crate::proofs::Opened::bounding))]
    pub(crate) fn bounded(
        &mut self,
        head: Result<(usize, usize), Error>,
    ) -> Result<(usize, usize), Error>
        ensures ok { IfOk result (λ h. (size : ℕ) × (head ≡ Ok (h.0, size))
            × (h.1 ≡ self.old.pos + size)) }
        ensures same { OnOk result (self.new ≡ self.old) }
        ensures refused { (take : Item → Option Item) (k : Option ℕ) (old : At) →
            Unless R.faulty head (Refuses take k old) →
            Unless R.faulty result (Refuses take k old) }
        ensures failed { OnErr result (HasFailed R.rest self.new) }
        ensures named { (t : Kind) (k : Option ℕ) (bytes : List ℕ) →
            Named R.faulty head (Names t k bytes) → Named R.faulty result (Names t k bytes) }
    {
        match head {
            Ok((count, size)) => {
                let Some(end) = self.pos.checked_add(size) else {
                    self.fail();
                    return Err(Error::Memory);
                };
                Ok((count, end))
            }
            Err(e) => {
                self.fail();
                Err(e)
            }
        }
    }

    /// Ends an item that holds others: none of them may be left, and they must end where its size says.
    pub(crate) fn finish(
        &mut self,
        outer: Option<u8>,
        left: usize,
        end: Option<usize>,
    ) -> Result<(), Error>
        ensures ok { OnOk result ((left ≡ 0) × AtEnd end self.old.pos
            × (at_of R.rest self.new ≡ at_of R.rest self.old) × (self.new.element ≡ outer)) }
        ensures refused { OnErr result ((left ≢ 0) ⊎ ((left ≡ 0) × (AtEnd end self.old.pos → ⊥))) }
        ensures failed { OnErr result (HasFailed R.rest self.new) }
        ensures named { IfErr result (λ e. NamesEnd left end self.old.pos e) }
    {
        if left != 0 {
            self.fail();
            return Err(Error::SequenceLengthMismatch);
        }
        if !is_at(end, self.pos) {
            self.fail();
            return Err(Error::InvalidLength);
        }
        self.element = outer;
        Ok(())
    }
}

/// Whether this is where the items end, if a size says where.
fn is_at(end: Option<usize>, pos: usize) -> bool
    ensures yes { result ≡ true → AtEnd end pos }
    ensures no { result ≡ false → AtEnd end pos → ⊥ }
{
    match end {
        None => true,
        Some(end) => end == pos,
    }
}
