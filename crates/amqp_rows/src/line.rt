//! Lines of a table.
ghost use Rattle.amqp_rows.specs.Rows.{Says, is_left_out};
ghost use Rattle.std.specs.Prelude.{◌≡◌};

/// What a line of a table says.
#[derive(Debug, Clone, Copy, PartialEq, Eq)]
pub enum Line<'a> {
    /// Nothing: it is empty, or begins with `#`.
    Empty,
    /// What is to be answered.
    Plain(&'a str),
    /// What is to be answered, and the answer that is wanted.
    Row {
        /// What stands before the first ` => `.
        given: &'a str,
        /// What stands behind it.
        wanted: &'a str,
    },
}

/// Reads a line.
pub fn parse(line: &str) -> Line<'_>
    ensures { Says line.now result }
{
    if is_left_out(line.as_bytes()) {
        return Line::Empty;
    }
    match line.split_once(" => ") {
        Some((given, wanted)) => Line::Row { given, wanted },
        None => Line::Plain(line),
    }
}

fn is_left_out(line: &[u8]) -> bool
    ensures { result ≡ is_left_out line.now }
{
    match line.first() {
        Some(byte) => *byte == b'#',
        None => true,
    }
}
