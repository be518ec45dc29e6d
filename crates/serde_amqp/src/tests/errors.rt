//! Texts of errors and values.
use crate::{ByteBuf, Error, Symbol, Text};
use std::alloc::AllocError;
use std::io::ErrorKind;
use std::process::Abort;

/// This text was made.
fn is_text(rt: &impl Abort, made: Result<String, AllocError>, text: &str) {
    match made {
        Ok(made) => assert_eq!(rt; made.as_str(), text),
        Err(_) => panic!(rt; "out of memory"),
    }
}

#[test]
fn of_errors(rt: HostRuntime) {
    let end = Error::Io(ErrorKind::UnexpectedEof);
    let made = format!(in rt.alloc(); "{end}");
    is_text(&rt, made, "input error: unexpected end of file");
    let made = format!(in rt.alloc(); "{}", Error::Memory);
    is_text(&rt, made, "out of memory");
}

#[test]
fn of_values(rt: HostRuntime) -> Result<(), Error> {
    let symbol = Symbol::from_str(rt.alloc(), "a\"b")?;
    let made = format!(in rt.alloc(); "{symbol} {symbol:?}");
    is_text(&rt, made, "a\"b \"a\\\"b\"");
    let text = Text::from_str(rt.alloc(), "\u{e9}")?;
    let made = format!(in rt.alloc(); "{text} {text:?}");
    is_text(&rt, made, "\u{e9} \"\u{e9}\"");
    let bytes = ByteBuf::from_slice(rt.alloc(), &[0, 0xff])?;
    is_text(&rt, format!(in rt.alloc(); "{bytes:?}"), "[0, 255]");
    Ok(())
}
