//! Places in a payload, found byte by byte (part 3, 3.4.1).
ghost use Rattle.std.specs.Prelude.{◌≡◌, ℕ, ◌+◌, ◌-◌, ◌^◌, ◌<◌, ◌≤◌, List, [], ◌∷◌, ◌++◌, length, take, nat_lt, ◌&&◌};
ghost use Rattle.std.specs.Prelude.{Some, IfSome, IfNone};
ghost use Rattle.amqp_link_base.specs.Starts.{place_at, read_at, start_of, behind};
ghost use Rattle.amqp_link_base.specs.Followed.{is_ended, followed};

use amqp_session_states::Received;

/// How much of a section's descriptor the last bytes are.
#[derive(Clone, Copy, Drop)]
pub(crate) enum Matched {
    /// Nothing of it.
    Nothing,
    /// The zero byte that it begins with.
    Zero,
    /// That byte, and the constructor of its code.
    Code,
}

impl Matched {
    /// Whether the byte completes a descriptor.
    fn ends_with(self, byte: u8) -> bool
        ensures { result ≡ is_ended self byte }
    {
        match self {
            Matched::Code => byte >= 0x70 && byte <= 0x78,
            _ => false,
        }
    }

    /// What the last bytes are once this one has come.
    fn then(self, byte: u8) -> Matched
        ensures { result ≡ followed self byte }
    {
        if byte == 0 {
            return Matched::Zero;
        }
        match self {
            Matched::Zero => {
                if byte == 0x53 || byte == 0x80 {
                    Matched::Code
                } else {
                    Matched::Nothing
                }
            }
            _ => Matched::Nothing,
        }
    }
}

/// The place at the end of the bytes so far, kept as they come.
#[derive(Clone, Copy)]
pub(crate) struct Scan {
    /// How many bytes have come.
    pub(crate) size: u64,
    /// How many sections start after the first byte.
    pub(crate) section: u32,
    /// How many bytes have come of the last section.
    pub(crate) offset: u64,
    matched: Matched,
    ghost within: { (section ≤ size) × (offset ≤ size) × (size < 2 ^ 32) },
}

impl Scan {
    ghost use Rattle.amqp_link_base.specs.Scans.{Scanned};

    /// A scan of no bytes.
    pub(crate) fn new() -> Self
        ensures { Scanned result [] }
    {
        Scan {
            size: 0,
            section: 0,
            offset: 0,
            matched: Matched::Nothing,
        }
    }

    /// Whether the byte completes the descriptor of a section that starts after the first byte.
    fn starts_with(&self, byte: u8) -> bool
        ensures { result ≡ (nat_lt 2 self.now.size && is_ended self.now.matched byte) }
    {
        self.size > 2 && self.matched.ends_with(byte)
    }

    /// Goes on by one byte.
    fn take_byte(&mut self, byte: u8)
        requires { self.old.size + 1 < 2 ^ 32 }
        ensures scanned { (xs : List ℕ) → Scanned self.old xs → Scanned self.new (xs ++ byte ∷ []) }
        ensures size { self.new.size ≡ self.old.size + 1 }
        ensures section { self.new.section ≤ self.old.section + 1 }
    {
        let starts = self.starts_with(byte);
        self.matched = self.matched.then(byte);
        self.size += 1;
        if starts {
            self.section += 1;
            self.offset = 3;
        } else {
            self.offset += 1;
        }
    }

    /// Goes on by these bytes.
    pub(crate) fn take(&mut self, bytes: &[u8])
        requires { self.old.size + length bytes.now < 2 ^ 32 }
        ensures scanned { (xs : List ℕ) → Scanned self.old xs → Scanned self.new (xs ++ bytes.now) }
        ensures size { self.new.size ≡ self.old.size + length bytes.now }
    {
        for byte in bytes {
            self.take_byte(*byte);
        }
    }

    /// Goes on by these bytes as long as the section has not started, and answers where it starts. A section that
    /// starts at the end of the bytes is left to `started`.
    pub(crate) fn seek(&mut self, bytes: &[u8], number: u32) -> Option<u64>
        requires short { self.old.size + length bytes.now < 2 ^ 32 }
        requires before { self.old.section ≤ number }
        ensures found { IfSome result (λ start. (xs rest : List ℕ) → Scanned self.old xs →
            start_of ((xs ++ bytes.now) ++ rest) number ≡ Some start) }
        ensures within { IfSome result (λ start. start ≤ self.old.size + length bytes.now) }
        ensures scanned { IfNone result ((xs : List ℕ) → Scanned self.old xs →
            Scanned self.new (xs ++ bytes.now)) }
        ensures size { IfNone result (self.new.size ≡ self.old.size + length bytes.now) }
        ensures before { IfNone result (self.new.section ≤ number) }
    {
        for byte in bytes {
            if self.section == number {
                return Some(self.size - self.offset);
            }
            self.take_byte(*byte);
        }
        None
    }

    /// Where the section starts, if it is the last so far.
    pub(crate) fn started(&self, number: u32) -> Option<u64>
        requires { self.now.section ≤ number }
        ensures value { (xs : List ℕ) → Scanned self.now xs → result ≡ start_of xs number }
        ensures within { IfSome result (λ start. start ≤ self.now.size) }
    {
        if self.section == number {
            return Some(self.size - self.offset);
        }
        None
    }

    /// The place so far.
    pub(crate) fn place(&self) -> Received
        ensures { result ≡ record {
          section_number = self.now.section;
          section_offset = self.now.offset;
        } }
    {
        Received {
            section_number: self.section,
            section_offset: self.offset,
        }
    }
}

/// So far behind a start, where that is within so many bytes.
pub(crate) fn reach(size: usize, start: u64, offset: u64) -> Option<usize>
    requires { start ≤ size }
    ensures { (payload : List ℕ) → length payload ≡ size →
        result ≡ behind payload offset (Some start) }
{
    if offset <= size as u64 - start {
        return Some((start + offset) as usize);
    }
    None
}

/// The place to which the first `n` bytes of a message reach (part 3, 3.4.1): how many sections start in them after the
/// first byte, and how many bytes of the last one there are.
///
/// A section starts at the first byte and wherever a section's descriptor stands within these bytes.
pub fn place(payload: &[u8], n: usize) -> Received
    requires within { n ≤ length payload.now }
    requires short { n < 2 ^ 32 }
    ensures { result ≡ place_at payload.now n }
{
    let mut scan = Scan::new();
    scan.take(&payload[..n]);
    scan.place()
}

/// How many bytes of a message stand before a place (part 3, 3.4.1).
///
/// None where the message has no such section, or ends before the place.
pub fn read_place(payload: &[u8], place: Received) -> Option<usize>
    requires { length payload.now < 2 ^ 32 }
    ensures { result ≡ read_at payload.now place }
{
    let mut scan = Scan::new();
    if let Some(start) = scan.seek(payload, place.section_number) {
        return reach(payload.len(), start, place.section_offset);
    }
    match scan.started(place.section_number) {
        Some(start) => reach(payload.len(), start, place.section_offset),
        None => None,
    }
}
