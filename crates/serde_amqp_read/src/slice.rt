//! Slices as sources.
ghost use Rattle.std.specs.Prelude.{◌≡◌, ◌<◌, ◌≤◌, ◌-◌, ◌++◌, [], length, refl, IfOk, IfErr, OnErr};
ghost use Rattle.serde_amqp_item.specs.declared.error.Error.TheVariants.{Io};
ghost use Rattle.serde_amqp_read.specs.Reads.{Source, faultless, counted, just_ends};

use crate::private::Sealed;
use crate::reader::Read;
use serde_amqp_item::Error;
use std::io::ErrorKind;
use std::marker::Model;

/// Reads a slice.
#[derive(Debug, Drop)]
pub struct SliceReader<'a> {
    slice: &'a [u8],
    /// How many bytes were taken or are left.
    total: usize,
}

// A clause sees the bytes that are left, and how many were taken.
impl<'a> Model for SliceReader<'a> {
    ghost Value = { Source };

    ghost view = { λ s. record { rest = s.slice.now; consumed = s.total - length s.slice.now } };

    ghost invariant = { λ s. length s.slice.now ≤ s.total };
}

impl<'a> SliceReader<'a> {
    /// Reads the slice from its front.
    pub fn new(slice: &'a [u8]) -> SliceReader<'a>
        ensures { result ≡ record { rest = slice.now; consumed = 0 } }
    {
        SliceReader {
            slice,
            total: slice.len(),
        }
    }

    /// The bytes that are left, which stay unread.
    pub fn left(&self) -> &'a [u8]
        ensures { result.now ≡ self.now.rest }
    {
        self.slice
    }

    /// Takes so many bytes, and lends them from the slice that is read.
    ///
    /// Errors: `Io` exactly where fewer are left.
    pub fn get_byte_slice(&mut self, count: usize) -> Result<&'a [u8], Error>
        ensures ok { IfOk result (λ s. self.old.rest ≡ s.now ++ self.new.rest) }
        ensures len { IfOk result (λ s. length s.now ≡ count) }
        ensures end { IfErr result (λ e. (e ≡ Io ErrorKind.UnexpectedEof)
            × (length self.old.rest < count)) }
        ensures failed { OnErr result (self.new.rest ≡ []) }
        ensures counted { self.new.consumed ≡ counted result count self.old.consumed }
    {
        if self.slice.len() < count {
            self.fail();
            return Err(Error::Io(ErrorKind::UnexpectedEof));
        }
        let (front, others) = self.slice.split_at(count);
        self.slice = others;
        Ok(front)
    }
}

impl<'a> Sealed for SliceReader<'a> {}

impl<'a> Read for SliceReader<'a> {
    ghost rest = { λ s. s.rest };

    ghost faulty = { faultless };

    ghost known = { λ _. refl };

    ghost consumed = { λ s. s.consumed };

    ghost ending = { λ _. just_ends };

    ghost ahead = { λ _. 0 };

    fn bytes_consumed(&self) -> usize {
        self.total - self.slice.len()
    }

    #[inline(always)]
    fn peek(&mut self) -> Result<u8, Error> {
        match self.slice.split_first() {
            None => Err(Error::Io(ErrorKind::UnexpectedEof)),
            Some((first, _)) => Ok(*first),
        }
    }

    fn peek_bytes(&mut self, buffer: &mut [u8]) -> Result<(), Error> {
        if self.slice.len() < buffer.len() {
            self.fail();
            return Err(Error::Io(ErrorKind::UnexpectedEof));
        }
        let (front, _) = self.slice.split_at(buffer.len());
        buffer.copy_from_slice(front);
        Ok(())
    }

    #[inline(always)]
    fn next(&mut self) -> Result<u8, Error> {
        match self.slice.split_first() {
            None => Err(Error::Io(ErrorKind::UnexpectedEof)),
            Some((byte, others)) => {
                self.slice = others;
                Ok(*byte)
            }
        }
    }

    fn read_exact(&mut self, buffer: &mut [u8]) -> Result<(), Error> {
        let front = self.get_byte_slice(buffer.len())?;
        buffer.copy_from_slice(front);
        Ok(())
    }

    fn append_bytes(&mut self, count: usize, bytes: &mut Vec<u8>) -> Result<(), Error> {
        if self.slice.len() < count {
            self.fail();
            return Err(Error::Io(ErrorKind::UnexpectedEof));
        }
        let (front, others) = self.slice.split_at(count);
        if bytes.extend_from_slice(front).is_err() {
            self.fail();
            return Err(Error::Memory);
        }
        self.slice = others;
        Ok(())
    }

    fn fail(&mut self) {
        self.total -= self.slice.len();
        self.slice = &[];
    }
}
