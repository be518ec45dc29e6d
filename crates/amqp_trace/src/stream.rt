//! Streams from their protocol header on, one direction of a connection or both.
use crate::deliveries::Deliveries;
use crate::frames::frame_line;
use crate::hexadecimal::read_bytes;
use crate::refusal::Refusal;
use std::alloc::{AllocError, Global};

/// How long a protocol header is (part 2, 2.2).
const PROTOCOL_HEADER_SIZE: usize = 8;

/// The fewest bytes of a frame (part 2, 2.3.1).
const LEAST_FRAME: usize = 8;

/// What stands next in a stream.
enum Next<'a> {
    /// The protocol header.
    Header(&'a [u8]),
    /// A frame of these bytes.
    Frame(&'a [u8]),
    /// A size that is smaller than that of any frame.
    SizeTooSmall(u32),
    /// Nothing yet, or fewer bytes than the size says, or than a header or a size has.
    Incomplete,
}

/// What stands in front of these bytes, of which the first are those of the stream, or not.
fn next_of(is_first: bool, bytes: &[u8]) -> Next<'_> {
    if is_first {
        return header_of(bytes);
    }
    let [a, b, c, d, ..] = bytes else {
        return Next::Incomplete;
    };
    let size = u32::from_be_bytes([*a, *b, *c, *d]);
    if (size as usize) < LEAST_FRAME {
        return Next::SizeTooSmall(size);
    }
    match bytes.get(..size as usize) {
        Some(frame) => Next::Frame(frame),
        None => Next::Incomplete,
    }
}

/// The protocol header in front of these bytes.
fn header_of(bytes: &[u8]) -> Next<'_> {
    match bytes.get(..PROTOCOL_HEADER_SIZE) {
        Some(header) => Next::Header(header),
        None => Next::Incomplete,
    }
}

/// How far a direction is read.
#[derive(Clone, Copy, PartialEq, Eq)]
enum Progress {
    /// None of its bytes came.
    Unheard,
    /// Frames are read as they get whole.
    Reading,
    /// Nothing more is read behind a fault.
    Over,
}

/// The bytes that go one way, as far as they came.
#[derive(Drop)]
struct Direction {
    /// What stands in front of each of its lines.
    name: &'static str,
    bytes: Vec<u8>,
    /// How many of the bytes are read.
    read: usize,
    progress: Progress,
    deliveries: Deliveries,
}

impl Direction {
    /// A direction of which nothing came.
    fn new(alloc: Global, name: &'static str) -> Self {
        Direction {
            name,
            bytes: Vec::new(alloc),
            read: 0,
            progress: Progress::Unheard,
            deliveries: Deliveries::new(alloc),
        }
    }

    /// Takes the bytes of a word, and appends a line for each frame that is whole with them.
    fn take(&mut self, alloc: Global, word: &str, lines: &mut Lines) -> Result<(), Refusal> {
        let bytes = read_bytes(alloc, word)?;
        if self.progress == Progress::Over {
            return Ok(());
        }
        self.progress = Progress::Reading;
        self.bytes.extend_from_slice(bytes.as_slice())?;
        self.read_on(alloc, lines)?;
        Ok(())
    }

    /// Appends a line for each frame that is whole and not read yet.
    fn read_on(&mut self, alloc: Global, lines: &mut Lines) -> Result<(), AllocError> {
        for _ in self.read..self.bytes.len() {
            if !self.read_next(alloc, lines)? {
                break;
            }
        }
        Ok(())
    }

    /// Appends the line of what stands next, if it is whole. Whether something may stand behind it.
    fn read_next(&mut self, alloc: Global, lines: &mut Lines) -> Result<bool, AllocError> {
        let rest = self.bytes.get(self.read..).unwrap_or(&[]);
        match next_of(self.read == 0, rest) {
            Next::Incomplete => return Ok(false),
            Next::Header(header) => {
                lines.begin(self.name, self.read)?;
                push_header(&mut lines.text, header)?;
                self.read = header.len();
            }
            Next::Frame(frame) => {
                lines.begin(self.name, self.read)?;
                push_frame(alloc, &mut self.deliveries, &mut lines.text, frame)?;
                self.read = self.read.saturating_add(frame.len());
            }
            Next::SizeTooSmall(size) => {
                lines.begin(self.name, self.read)?;
                write!(&mut lines.text, "fault size {size}")?;
                self.progress = Progress::Over;
            }
        }
        Ok(self.progress == Progress::Reading)
    }

    /// Appends the fault of a direction that ends within its header or a frame.
    fn end(&self, lines: &mut Lines) -> Result<(), AllocError> {
        let is_whole = self.read > 0 && self.read == self.bytes.len();
        if is_whole || self.progress != Progress::Reading {
            return Ok(());
        }
        lines.begin(self.name, self.read)?;
        lines.text.push_str("fault incomplete")
    }
}

/// Lines of streams, with something between them.
#[derive(Drop)]
struct Lines {
    text: String,
    separator: &'static str,
}

impl Lines {
    /// Begins the line for what stands at this offset of a direction.
    fn begin(&mut self, direction: &str, offset: usize) -> Result<(), AllocError> {
        if !self.text.is_empty() {
            self.text.push_str(self.separator)?;
        }
        write!(&mut self.text, "{direction}{offset} ")
    }
}

/// The bytes of a connection, as far as they came.
#[derive(Drop)]
struct Streams {
    /// Bytes of which no direction is said.
    alone: Direction,
    /// Those that an end sends.
    sent: Direction,
    /// Those that it receives.
    received: Direction,
    lines: Lines,
}

impl Streams {
    /// Streams of which nothing came.
    fn new(alloc: Global, separator: &'static str) -> Self {
        Streams {
            alone: Direction::new(alloc, ""),
            sent: Direction::new(alloc, "out "),
            received: Direction::new(alloc, "in "),
            lines: Lines {
                text: String::new(alloc),
                separator,
            },
        }
    }

    /// Takes a piece: `<hex>`, `out <hex>` or `in <hex>`.
    fn take(&mut self, alloc: Global, piece: &str) -> Result<(), Refusal> {
        match piece.split_once(' ') {
            None => self.alone.take(alloc, piece, &mut self.lines),
            Some(("out", word)) => self.sent.take(alloc, word, &mut self.lines),
            Some(("in", word)) => self.received.take(alloc, word, &mut self.lines),
            Some(_) => Err(Refusal::Unreadable),
        }
    }

    /// All lines, with the faults of what ends early.
    fn end(self) -> Result<String, AllocError> {
        let Streams {
            alone,
            sent,
            received,
            mut lines,
        } = self;
        alone.end(&mut lines)?;
        sent.end(&mut lines)?;
        received.end(&mut lines)?;
        Ok(lines.text)
    }
}

/// The lines of streams, with this between them: of each direction its protocol header, then each frame, each with its
/// offset in front, in the order in which they get whole. The pieces are parted by ` ; `. What can't be read has its
/// fault. Behind a frame that isn't whole nothing is read.
pub(crate) fn stream_lines(
    alloc: Global,
    pieces: &str,
    separator: &'static str,
) -> Result<String, Refusal> {
    let mut streams = Streams::new(alloc, separator);
    for piece in pieces.split(" ; ") {
        streams.take(alloc, piece)?;
    }
    Ok(streams.end()?)
}

/// Appends the line of the protocol header (part 2, 2.2).
fn push_header(line: &mut String, header: &[u8]) -> Result<(), AllocError> {
    match header {
        [b'A', b'M', b'Q', b'P', id, major, minor, revision] => {
            write!(line, "protocol {id} version {major}.{minor}.{revision}")
        }
        _ => line.push_str("fault protocol"),
    }
}

/// Appends the line of a frame. Behind one that can't be read no delivery goes on: it may have carried a part of it.
fn push_frame(
    alloc: Global,
    deliveries: &mut Deliveries,
    lines: &mut String,
    frame: &[u8],
) -> Result<(), AllocError> {
    let line = match frame_line(alloc, deliveries, frame) {
        Ok(line) => line,
        Err(refusal) => {
            *deliveries = Deliveries::new(alloc);
            refusal.answer(alloc)?
        }
    };
    lines.push_str(line.as_str())
}
