//! Readers: their calls, what they fetch, and an inner reader that refuses in mid-stream.
ghost use Rattle.std.specs.Prelude.{◌++◌, refl, Some};

use crate::{Error, InMemory, IoReader, OrderedMap, Read, SliceReader, from_reader};
use std::alloc::Global;
use std::io;
use std::io::ErrorKind;
use std::process::Abort;

const END: Error = Error::Io(ErrorKind::UnexpectedEof);

/// A reader that gives its bytes in two parts, and behind them fails or ends.
#[derive(Drop)]
struct Parts<'a> {
    front: &'a [u8],
    behind: &'a [u8],
    fault: Option<ErrorKind>,
}

impl io::Read for Parts<'_> {
    ghost remaining = { λ p. Some (p.front.now ++ p.behind.now) };

    fn read(&mut self, buffer: &mut [u8]) -> io::Result<usize> {
        self.give(buffer)
    }
}

impl InMemory for Parts<'_> {
    ghost bytes = { λ p. p.front.now ++ p.behind.now };

    ghost fault = { λ p. p.fault };

    ghost remains = { λ _. refl };

    fn give(&mut self, buffer: &mut [u8]) -> io::Result<usize> {
        if !self.front.is_empty() {
            return self.front.give(buffer);
        }
        if buffer.is_empty() {
            return Ok(0);
        }
        if !self.behind.is_empty() {
            return self.behind.give(buffer);
        }
        match self.fault {
            Some(kind) => Err(io::Error::from(kind)),
            None => Ok(0),
        }
    }
}

#[test]
fn fetched_bytes(rt: HostRuntime) -> Result<(), Error> {
    let bytes: &[u8] = &[1, 2, 3, 4];
    let mut reader = IoReader::new(rt.alloc(), bytes);
    reader.fill_buffer(3)?;
    assert_eq!(rt; reader.pop_first(), Some(1));
    let (behind, fetched) = reader.into_parts();
    assert_eq!(rt; fetched.len(), 2);
    assert_eq!(rt; behind, [4].as_slice());
    Ok(())
}

#[test]
fn no_byte_is_read_too_early(rt: HostRuntime) {
    let bytes: &[u8] = &[1, 2, 3, 4];
    let mut reader = IoReader::new(rt.alloc(), bytes);
    assert_eq!(rt; reader.peek(), Ok(1));
    assert_eq!(rt; reader.read_const_bytes::<2>(), Ok([1, 2]));
    match reader.into_inner() {
        Ok(behind) => assert_eq!(rt; behind, [3, 4].as_slice()),
        Err(_) => assert!(rt; false),
    }
}

/// An inner reader of one byte that fails so behind it is told by this error, and then there is nothing left.
fn tells(rt: &impl Abort, alloc: Global, kind: ErrorKind, told: ErrorKind) {
    let inner = Parts {
        front: &[1],
        behind: &[],
        fault: Some(kind),
    };
    let mut reader = IoReader::new(alloc, inner);
    assert_eq!(rt; reader.next(), Ok(1));
    assert_eq!(rt; reader.next(), Err(Error::Io(told)));
    assert_eq!(rt; reader.next(), Err(END));
}

#[test]
fn errors_of_the_inner_reader(rt: HostRuntime) {
    tells(&rt, rt.alloc(), ErrorKind::TimedOut, ErrorKind::TimedOut);
    tells(&rt, rt.alloc(), ErrorKind::UnexpectedEof, ErrorKind::Other);
}

/// A uint, a map and a null, and a byte that is no constructor.
const VALUES: &[u8] = b"\x70\0\0\x01\0\xc1\x05\x02\xa1\x01a\x41\x40\xff";

/// Reads the values one after the other, and then the byte that is left.
fn reads_all<R: Read + Drop>(rt: &impl Abort, alloc: Global, reader: R) -> Result<(), Error> {
    let (number, reader) = from_reader::<u32, R>(alloc, reader)?;
    assert_eq!(rt; number, 256);
    let (map, reader) = from_reader::<OrderedMap<String, bool>, R>(alloc, reader)?;
    assert!(rt; map.iter().all(|(key, value)| key.as_str() == "a" && *value));
    let (null, mut reader) = from_reader::<(), R>(alloc, reader)?;
    assert_eq!(rt; null, ());
    assert_eq!(rt; reader.bytes_consumed(), 13);
    assert_eq!(rt; reader.next(), Ok(0xff));
    assert_eq!(rt; reader.next(), Err(Error::Io(ErrorKind::UnexpectedEof)));
    Ok(())
}

#[test]
fn one_behind_the_other(rt: HostRuntime) -> Result<(), Error> {
    let alloc = rt.alloc();
    reads_all(&rt, alloc, SliceReader::new(VALUES))?;
    reads_all(&rt, alloc, IoReader::new(alloc, VALUES))?;
    for at in 0..=VALUES.len() {
        let (front, behind) = VALUES.split_at(at);
        let inner = Parts {
            front,
            behind,
            fault: None,
        };
        reads_all(&rt, alloc, IoReader::new(alloc, inner))?;
    }
    Ok(())
}
