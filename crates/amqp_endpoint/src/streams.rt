//! What a script is read from, and what its answers are written to: any reader and any writer of std.
ghost use Rattle.std.specs.Prelude.{◌≡◌, ◌≤◌, ℕ, List, [], IfOk, OnErr, OnOk, MatchResult, drop, length, take};
ghost use Rattle.std.specs.Io.KnownBytes.{Appends, Keeps};
ghost use Rattle.std.specs.IoError.{error_kind};
ghost use Rattle.std.specs.declared.io.ErrorKind.{ErrorKind as Kind};
ghost use Rattle.amqp_endpoint.specs.Streams.{ReadsAll, ReadsSome, TakesFront, TakesSome};

use std::alloc::Global;
use std::io;
use std::io::{ErrorKind, Read, Write};

/// What a script is read from: each reader of std. Generic code knows no more of it than what its call says here: so a
/// refusal can't be told where the reader gave none, nor one of another kind.
pub trait ReadText {
    /// Read to its end, it gives this text.
    ghost gives: { Self → List ℕ → Self → Type 0 };

    /// Before its end it refuses with an error of this kind.
    ghost refuses: { Self → Kind → Self → Type 0 };

    /// Reads to the end.
    ///
    /// The error is the reader's, or one of the kind `OutOfMemory` where there is no memory for the text.
    fn read_text(&mut self, alloc: Global) -> io::Result<Vec<u8>>
        ensures { MatchResult result (λ text. gives self.old text.items self.new)
            (λ error. refuses self.old (error_kind error) self.new) };
}

impl<R: Read> ReadText for R {
    ghost gives = { λ old text new. ReadsAll (R.remaining old) text (R.remaining new) };

    ghost refuses = { λ old _ new. ReadsSome (R.remaining old) (R.remaining new) };

    fn read_text(&mut self, alloc: Global) -> io::Result<Vec<u8>> {
        let mut text = Vec::new(alloc);
        self.read_to_end(&mut text)?;
        Ok(text)
    }
}

/// What a text is written to: each writer of std.
pub trait WriteText {
    /// It takes all of this text.
    ghost takes: { Self → List ℕ → Self → Type 0 };

    /// It refuses, once it took some of this text.
    ghost stops: { Self → List ℕ → Self → Type 0 };

    /// Writes all of a text.
    ///
    /// The error is the writer's.
    fn write_text(&mut self, text: &[u8]) -> io::Result<()>
        ensures { MatchResult result (λ _. takes self.old text.now self.new)
            (λ _. stops self.old text.now self.new) };
}

impl<W: Write> WriteText for W {
    ghost takes = { λ old text new. Appends (W.contents old) (W.contents new) text };

    ghost stops = { λ old text new. TakesSome (W.contents old) text (W.contents new) };

    #[tactic(auto, using(crate::proofs::Writing::all_taken, crate::proofs::Writing::some_taken))]
    fn write_text(&mut self, text: &[u8]) -> io::Result<()> {
        write_front(self, text)?;
        match self.flush() {
            Ok(()) => Ok(()),
            Err(error) => Err(error),
        }
    }
}

/// Writes all of a text, or the first of its bytes where the writer refuses. It tries 2^64 - 1 times.
#[tactic(auto, using(crate::proofs::Writing::writing))]
fn write_front<W: Write>(writer: &mut W, text: &[u8]) -> io::Result<()>
    ensures ok { OnOk result (TakesFront (W.contents writer.old) text.now (W.contents writer.new) []) }
    ensures err { OnErr result (TakesSome (W.contents writer.old) text.now (W.contents writer.new)) }
{
    let mut rest = text;
    for _turn in 0..u64::MAX {
        if rest.is_empty() {
            return Ok(());
        }
        let count = write_some(writer, rest)?;
        rest = bytes_behind(rest, count);
    }
    Err(ErrorKind::TimedOut.into())
}

/// The bytes behind the first so many.
fn bytes_behind(bytes: &[u8], count: usize) -> &[u8]
    requires { count ≤ length bytes.now }
    ensures { result.now ≡ drop count bytes.now }
{
    bytes.split_at(count).1
}

/// Writes once of these bytes, and answers how many were taken: none where a signal interrupts it. `WriteZero` where
/// the writer takes nothing.
fn write_some<W: Write>(writer: &mut W, bytes: &[u8]) -> io::Result<usize>
    ensures bound { IfOk result (λ count. count ≤ length bytes.now) }
    ensures ok { IfOk result (λ count.
        Appends (W.contents writer.old) (W.contents writer.new) (take count bytes.now)) }
    ensures err { OnErr result (Keeps (W.contents writer.old) (W.contents writer.new)) }
{
    match writer.write(bytes) {
        Ok(0) => Err(ErrorKind::WriteZero.into()),
        Ok(count) => Ok(count),
        Err(error) => unless_interrupted(error),
    }
}

/// An error, unless a signal interrupted the call: nothing was written then.
fn unless_interrupted(error: io::Error) -> io::Result<usize>
    ensures { IfOk result (λ count. count ≡ 0) }
{
    if error.kind() == ErrorKind::Interrupted {
        return Ok(0);
    }
    Err(error)
}
