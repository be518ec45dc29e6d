//! Texts of lists and of bytes, in which a long run of equal parts stands once.
use std::alloc::{AllocError, Global};

/// From so many equal parts on, one of them stands for all, with their number.
const LONG: usize = 20;

/// Parts one behind the other.
#[derive(Drop)]
pub struct Runs {
    text: String,
    last: Option<String>,
    count: usize,
}

impl Runs {
    /// No parts.
    pub fn new(alloc: Global) -> Runs {
        Runs {
            text: String::new(alloc),
            last: None,
            count: 0,
        }
    }

    /// Puts a part last.
    pub fn push(&mut self, part: String) -> Result<(), AllocError> {
        if self.is_last(part.as_str()) {
            self.count = self.count.saturating_add(1);
            return Ok(());
        }
        self.end_run()?;
        self.last = Some(part);
        self.count = 1;
        Ok(())
    }

    fn is_last(&self, part: &str) -> bool {
        match &self.last {
            Some(last) => last.as_str() == part,
            None => false,
        }
    }

    fn end_run(&mut self) -> Result<(), AllocError> {
        match self.last.take() {
            Some(last) => append_run(&mut self.text, last.as_str(), self.count),
            None => Ok(()),
        }
    }

    /// The text of all parts, with a comma between two.
    pub fn into_text(mut self) -> Result<String, AllocError> {
        self.end_run()?;
        Ok(self.text)
    }
}

fn append_run(text: &mut String, part: &str, count: usize) -> Result<(), AllocError> {
    if count >= LONG {
        part_from_last(text)?;
        return write!(text, "{part}*{count}");
    }
    for _ in 0..count {
        part_from_last(text)?;
        text.push_str(part)?;
    }
    Ok(())
}

fn part_from_last(text: &mut String) -> Result<(), AllocError> {
    if text.is_empty() {
        return Ok(());
    }
    text.push_str(", ")
}

/// The parts between two brackets.
pub fn bracketed(
    alloc: Global,
    open: char,
    parts: Runs,
    close: char,
) -> Result<String, AllocError> {
    let parts = parts.into_text()?;
    format!(in alloc; "{open}{parts}{close}")
}

/// Bytes in hex digits. From twenty equal bytes on they are a word of their own, with their number.
#[derive(Drop)]
struct HexWords {
    text: String,
    byte: u8,
    count: usize,
    is_word_ended: bool,
}

impl HexWords {
    fn push(&mut self, byte: u8) -> Result<(), AllocError> {
        if byte == self.byte {
            self.count = self.count.saturating_add(1);
            return Ok(());
        }
        self.end_run()?;
        self.byte = byte;
        self.count = 1;
        Ok(())
    }

    fn end_run(&mut self) -> Result<(), AllocError> {
        if self.count >= LONG {
            return self.append_word();
        }
        if self.count > 0 && self.is_word_ended {
            self.text.push(' ')?;
            self.is_word_ended = false;
        }
        append_bytes(&mut self.text, self.byte, self.count)
    }

    fn append_word(&mut self) -> Result<(), AllocError> {
        if !self.text.is_empty() {
            self.text.push(' ')?;
        }
        self.is_word_ended = true;
        write!(&mut self.text, "{:02x}*{}", self.byte, self.count)
    }
}

fn append_bytes(text: &mut String, byte: u8, count: usize) -> Result<(), AllocError> {
    for _ in 0..count {
        write!(text, "{byte:02x}")?;
    }
    Ok(())
}

/// The text of bytes, as a line has them.
pub fn hex_of(alloc: Global, bytes: &[u8]) -> Result<String, AllocError> {
    if bytes.is_empty() {
        return String::from_str(alloc, "-");
    }
    let mut words = HexWords {
        text: String::new(alloc),
        byte: 0,
        count: 0,
        is_word_ended: false,
    };
    for byte in bytes {
        words.push(*byte)?;
    }
    words.end_run()?;
    Ok(words.text)
}

/// A text in quotes. One that has a character twenty times and more, and no other, has it once, with its number.
pub fn quoted(alloc: Global, text: &str) -> Result<String, AllocError> {
    match text.chars().next() {
        Some(first) if is_long_run(text, first) => {
            let count = text.chars().count();
            format!(in alloc; "\"{first}\"*{count}")
        }
        _ => format!(in alloc; "{text:?}"),
    }
}

fn is_long_run(text: &str, first: char) -> bool {
    text.len() >= LONG && text.chars().all(|c| c == first)
}
