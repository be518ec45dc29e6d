//! Readers of std of which all is known.
ghost use Rattle.std.specs.Prelude.{◌≡◌, ◌<◌, ◌++◌, [], ℕ, List, length, take, refl, IfOk, IfErr, Option, Some, None};
ghost use Rattle.std.specs.Io.{ReadsAtMost};
ghost use Rattle.std.specs.IoError.{error_kind};
ghost use Rattle.std_io.specs.declared.io.kind.ErrorKind.{ErrorKind as Kind};

use std::collections::VecDeque;
use std::io;

/// A reader of std that is in memory: the bytes that it will give are known, and what it answers behind
/// them.
pub trait InMemory: io::Read {
    /// The bytes that it will give.
    ghost bytes: { Self → List ℕ };

    /// The kind of the error that it answers behind these bytes; none where they just end.
    ghost fault: { Self → Option Kind };

    /// Gives the next bytes, as many as it likes, but one at least where there is a byte and room for it.
    ///
    /// Errors: one of the kind of its fault, behind the last of its bytes, from there on each time.
    fn give(&mut self, buffer: &mut [u8]) -> io::Result<usize>
        ensures bound { ReadsAtMost result buffer.new }
        ensures given { IfOk result (λ n. bytes self.old ≡ take n buffer.new ++ bytes self.new) }
        ensures some { IfOk result (λ n. n ≡ 0 → 0 < length buffer.old →
            (bytes self.old ≡ []) × (fault self.old ≡ None)) }
        ensures failed { IfErr result (λ e. (bytes self.old ≡ []) × (bytes self.new ≡ [])
            × (fault self.old ≡ Some (error_kind e))) }
        ensures lasting { fault self.new ≡ fault self.old };

    /// Its bytes are those that std's trait says to remain.
    ghost remains: { (s : Self) → Self.remaining s ≡ Some (bytes s) };
}

impl InMemory for &[u8] {
    ghost bytes = { λ s. s.now };

    ghost fault = { λ _. None };

    ghost remains = { λ _. refl };

    fn give(&mut self, buffer: &mut [u8]) -> io::Result<usize> {
        io::Read::read(self, buffer)
    }
}

impl InMemory for VecDeque<u8> {
    ghost bytes = { λ q. q.items };

    ghost fault = { λ _. None };

    ghost remains = { λ _. refl };

    fn give(&mut self, buffer: &mut [u8]) -> io::Result<usize> {
        io::Read::read(self, buffer)
    }
}
