//! Pieces of a connection's bytes that stand on lines of their own.
use std::alloc::{AllocError, Global};

/// A text of lines, in which each run of lines `out <hex>` and `in <hex>` is one line, the pieces parted by ` ; `.
/// Empty lines and comments may stand between two of them, and are left out. Empty lines stand in the place of the
/// others, so that each line keeps its number.
pub fn with_pieces_joined(alloc: Global, text: &[u8]) -> Result<Vec<u8>, AllocError> {
    let mut joined = Joined {
        text: Vec::new(alloc),
        ends: 0,
    };
    for line in text.split(|byte| *byte == b'\n') {
        joined.push(line)?;
    }
    joined.end_run()?;
    Ok(joined.text)
}

/// Lines whose pieces are joined.
#[derive(Drop)]
struct Joined {
    text: Vec<u8>,
    /// How many lines the run has that stands last, as far as it came. Their ends come behind it.
    ends: usize,
}

impl Joined {
    /// Puts a line last.
    fn push(&mut self, line: &[u8]) -> Result<(), AllocError> {
        if is_piece(line) {
            return self.push_piece(line);
        }
        if self.ends > 0 && is_left_out(line) {
            self.ends = self.ends.saturating_add(1);
            return Ok(());
        }
        self.end_run()?;
        self.text.extend_from_slice(line)?;
        self.text.push(b'\n')?;
        Ok(())
    }

    /// Puts a piece last in the run.
    fn push_piece(&mut self, piece: &[u8]) -> Result<(), AllocError> {
        if self.ends > 0 {
            self.text.extend_from_slice(b" ; ")?;
        }
        self.ends = self.ends.saturating_add(1);
        self.text.extend_from_slice(piece)
    }

    /// Ends the run that stands last.
    fn end_run(&mut self) -> Result<(), AllocError> {
        for _ in 0..self.ends {
            self.text.push(b'\n')?;
        }
        self.ends = 0;
        Ok(())
    }
}

/// Whether a line is pieces alone, and no row.
fn is_piece(line: &[u8]) -> bool {
    let is_directed = line.starts_with(b"out ") || line.starts_with(b"in ");
    is_directed && !line.iter().any(|byte| *byte == b'=')
}

/// Whether a line says nothing: it is empty, or a comment.
fn is_left_out(line: &[u8]) -> bool {
    match line.first() {
        Some(byte) => *byte == b'#',
        None => true,
    }
}
