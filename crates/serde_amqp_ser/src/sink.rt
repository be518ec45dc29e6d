//! What a serializer writes to.
ghost use Rattle.std.specs.Prelude.{◌≡◌, ◌≢◌, ◌<◌, ◌+◌, ℕ, Bool, true, false, List, [], ◌++◌, length, if◌then◌else◌};
ghost use Rattle.std.specs.Prelude.{Some, None, Err, OnOk, OnErr, IfErr, ◌^◌, nat_lt};
ghost use Rattle.serde_amqp_ser.specs.Written.{Written, extended, inside, capped, Keeps};
ghost use Rattle.serde_amqp_ser.specs.Whole.{whole_capped};

use serde_amqp_item::Error;
use std::marker::Model;

/// A place to write bytes to. There are two: a [`Counter`], which only counts, and a `Vec<u8>`.
pub trait Sink {
    /// What it holds.
    ghost written: { Self → Written };

    /// From which number the bytes in a compound value are counted, by the number of bytes before it.
    ghost begins: { ℕ → ℕ };

    /// Whether it may want memory.
    ghost takes_memory: { Bool };

    /// Writes bytes behind what is there.
    #[inline(always)]
    fn put(&mut self, bytes: &[u8]) -> Result<(), Error>
        ensures ok { OnOk result (written self.new ≡ extended (written self.old) bytes.now) }
        ensures err { OnErr result (written self.new ≡ written self.old) }
        ensures memory { IfErr result (λ e. (e ≡ Error.Memory) × (takes_memory ≡ true)) };

    /// Begins the content of a compound value, and says where it begins.
    #[inline(always)]
    fn open(&mut self) -> u128
        ensures inside { written self.new ≡ extended (inside begins (written self.old)) [] }
        ensures start { result ≡ (written self.old).size };

    /// How long the content is that began there, if that is below 2^32.
    #[inline(always)]
    fn content_len(&self, start: u128) -> Option<u32>
        ensures { (w : Written) (content : List ℕ) →
            written self.now ≡ extended (inside begins w) content → w.size ≡ start →
            result ≡ (if nat_lt (length content) (2 ^ 32) then Some (length content) else None) };

    /// How many bytes it holds, to go back to.
    #[inline(always)]
    fn here(&self) -> u128
        ensures { result ≡ (written self.now).size };

    /// Goes back to what it held when it was of this size.
    fn back_to(&mut self, start: u128)
        ensures { (s : Self) → Keeps (written s) (written self.old) → (written s).size ≡ start
            → written self.new ≡ written s };

    /// Ends the content that began there, with these bytes in front of it. Answers `InvalidLength`, and changes
    /// nothing, where that is behind the end, so that no content began there.
    #[inline(always)]
    fn close(&mut self, start: u128, head: &[u8]) -> Result<(), Error>
        ensures ok { OnOk result ((w : Written) (content : List ℕ) →
            written self.old ≡ extended (inside begins w) content → w.size ≡ start →
            written self.new ≡ extended w (head.now ++ content)) }
        ensures err { OnErr result (written self.new ≡ written self.old) }
        ensures beyond { (written self.old).size < capped (begins start) →
            result ≡ Err Error.InvalidLength }
        ensures refused { IfErr result (λ e. e ≢ Error.Memory
            → (e ≡ Error.InvalidLength) × ((written self.old).size < capped (begins start))) }
        ensures memory { IfErr result (λ e. e ≡ Error.Memory → takes_memory ≡ true) };

    /// Ends the content that began there, with nothing in front of it.
    #[inline(always)]
    fn join(&mut self, start: u128)
        ensures { (w : Written) (content : List ℕ) →
            written self.old ≡ extended (inside begins w) content → w.size ≡ start →
            written self.new ≡ extended w content };

    /// Puts these bytes in the place of as many that stand there.
    #[inline(always)]
    fn overwrite(&mut self, start: u128, bytes: &[u8])
        ensures { (w : Written) (room more : List ℕ) →
            written self.old ≡ extended w (room ++ more) → w.size ≡ start →
            length room ≡ length bytes.now → written self.new ≡ extended w (bytes.now ++ more) };

    /// No bytes change nothing.
    ghost whole: { (s : Self) → extended (written s) [] ≡ written s };
}

/// Only counts, up to 2^64: what is longer counts as 2^64 bytes. A clause sees the number of bytes.
#[derive(Debug, Drop)]
pub struct Counter {
    count: u64,
    /// Whether there are 2^64 bytes or more.
    over: bool,
}

impl Model for Counter {
    ghost Value = { ℕ };

    ghost view = { λ c. if c.over then 2 ^ 64 else c.count };
}

impl Counter {
    /// Counts from 0.
    pub fn new() -> Counter
        ensures { result ≡ 0 }
    {
        Counter {
            count: 0,
            over: false,
        }
    }

    /// How many bytes there are, up to 2^64.
    pub fn count(&self) -> u128
        ensures { result ≡ capped self.now }
    {
        if self.over {
            return 1 << 64;
        }
        self.count as u128
    }

    /// Counts more bytes.
    #[inline(always)]
    fn add(&mut self, more: u64)
        ensures { capped self.new ≡ capped (self.old + more) }
    {
        let (count, over) = self.count.overflowing_add(more);
        self.count = count;
        if over {
            self.over = true;
        }
    }

    /// Counts the bytes before a place.
    #[inline(always)]
    fn add_start(&mut self, start: u128)
        ensures { capped self.new ≡ capped (self.old + start) }
    {
        match u64::try_from(start) {
            Ok(start) => self.add(start),
            Err(_) => self.over = true,
        }
    }
}

impl Sink for Counter {
    ghost written = { λ n. record { size = capped n; bytes = None } };

    ghost begins = { λ _. 0 };

    ghost takes_memory = { false };

    ghost whole = { λ n. whole_capped n None };

    #[inline(always)]
    #[tactic(auto, unfolding(crate::specs::Written::extended))]
    fn put(&mut self, bytes: &[u8]) -> Result<(), Error> {
        self.add(bytes.len() as u64);
        Ok(())
    }

    #[inline(always)]
    #[tactic(auto, unfolding(crate::specs::Written::extended, crate::specs::Written::inside))]
    fn open(&mut self) -> u128 {
        let start = self.count();
        *self = Counter::new();
        start
    }

    #[inline(always)]
    #[tactic(auto, unfolding(crate::specs::Written::extended, crate::specs::Written::inside))]
    fn content_len(&self, _start: u128) -> Option<u32> {
        if self.over {
            return None;
        }
        if self.count >= 1 << 32 {
            return None;
        }
        Some(self.count as u32)
    }

    #[inline(always)]
    fn here(&self) -> u128 {
        self.count()
    }

    fn back_to(&mut self, start: u128) {
        *self = Counter::new();
        self.add_start(start);
    }

    #[inline(always)]
    #[tactic(auto, unfolding(crate::specs::Written::extended, crate::specs::Written::inside))]
    fn close(&mut self, start: u128, head: &[u8]) -> Result<(), Error> {
        self.add(head.len() as u64);
        self.add_start(start);
        Ok(())
    }

    #[inline(always)]
    #[tactic(auto, unfolding(crate::specs::Written::extended, crate::specs::Written::inside))]
    fn join(&mut self, start: u128) {
        self.add_start(start);
    }

    #[inline(always)]
    #[tactic(auto, unfolding(crate::specs::Written::extended))]
    fn overwrite(&mut self, _start: u128, _bytes: &[u8]) {}
}

impl Sink for Vec<u8> {
    ghost written = { λ v. record { size = capped (length v.items); bytes = Some v.items } };

    ghost begins = { λ n. n };

    ghost takes_memory = { true };

    ghost whole = { λ s. whole_capped (length s.items) (Some s.items) };

    #[inline(always)]
    #[tactic(auto, unfolding(crate::specs::Written::extended))]
    fn put(&mut self, bytes: &[u8]) -> Result<(), Error> {
        self.extend_from_slice(bytes)?;
        Ok(())
    }

    #[inline(always)]
    #[tactic(auto, unfolding(crate::specs::Written::extended, crate::specs::Written::inside))]
    fn open(&mut self) -> u128 {
        self.len() as u128
    }

    #[inline(always)]
    #[tactic(auto, unfolding(crate::specs::Written::extended, crate::specs::Written::inside))]
    fn content_len(&self, start: u128) -> Option<u32> {
        let Ok(start) = usize::try_from(start) else {
            return None;
        };
        let len = self.len().saturating_sub(start);
        if len >= 1 << 32 {
            return None;
        }
        Some(len as u32)
    }

    #[inline(always)]
    fn here(&self) -> u128 {
        self.len() as u128
    }

    fn back_to(&mut self, start: u128) {
        if let Ok(len) = usize::try_from(start) {
            self.truncate(len);
        }
    }

    #[inline(always)]
    #[tactic(auto, unfolding(crate::specs::Written::extended, crate::specs::Written::inside))]
    fn close(&mut self, start: u128, head: &[u8]) -> Result<(), Error> {
        let len = self.len();
        let Ok(start) = usize::try_from(start) else {
            return Err(Error::InvalidLength);
        };
        if start > len {
            return Err(Error::InvalidLength);
        }
        self.extend_from_slice(head)?;
        let content = start + head.len();
        self.copy_within(start..len, content);
        self[start..content].copy_from_slice(head);
        Ok(())
    }

    #[inline(always)]
    #[tactic(auto, unfolding(crate::specs::Written::extended, crate::specs::Written::inside))]
    fn join(&mut self, _start: u128) {}

    #[inline(always)]
    #[tactic(auto, unfolding(crate::specs::Written::extended))]
    fn overwrite(&mut self, start: u128, bytes: &[u8]) {
        let Ok(start) = usize::try_from(start) else {
            return;
        };
        let Some(end) = start.checked_add(bytes.len()) else {
            return;
        };
        if end <= self.len() {
            self[start..end].copy_from_slice(bytes);
        }
    }
}
