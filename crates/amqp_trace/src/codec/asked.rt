//! Questions about a type, answered for any type.
use crate::codec::question::{Question, Verb};
use crate::codec::runs::hex_of;
use crate::codec::shown::Shown;
use serde_amqp::{
    Array, BorrowDeserialize, Deserialize, Deserializer, Error, IoReader, Read, Serialize,
    SliceReader, borrow_from_slice, from_reader, from_slice, serialized_size, to_vec,
};
use std::alloc::{AllocError, Global};

/// What is answered where bytes end early.
const ENDS_EARLY: &str = "refused Io(UnexpectedEof)";

/// Answers a question about a type.
pub fn typed<T: Serialize + Deserialize + Shown + Drop>(
    alloc: Global,
    question: &Question<'_>,
) -> Result<Option<String>, AllocError> {
    let bytes = question.named.bytes.as_slice();
    let answer = match question.verb {
        Verb::As => read_as::<T>(alloc, bytes)?,
        Verb::Array => array_of::<T>(alloc, bytes)?,
        Verb::Beginnings => beginnings::<T>(alloc, bytes)?,
        Verb::Constructors => constructors::<T>(alloc, bytes)?,
    };
    Ok(Some(answer))
}

/// What the bytes are read as, from a slice and from a reader alike.
fn read_as<T: Serialize + Deserialize + Shown + Drop>(
    alloc: Global,
    bytes: &[u8],
) -> Result<String, AllocError> {
    let of_slice = read_from_slice::<T>(alloc, bytes)?;
    let (of_reader, left) = read_from_reader::<T>(alloc, bytes)?;
    if of_slice.as_str() != of_reader.as_str() {
        return format!(in alloc; "{of_slice}, but {of_reader} from a reader");
    }
    if left > 0 {
        return format!(in alloc; "{of_slice} left {left}");
    }
    Ok(of_slice)
}

fn read_from_slice<T: Serialize + Deserialize + Shown + Drop>(
    alloc: Global,
    bytes: &[u8],
) -> Result<String, AllocError> {
    match from_slice::<T>(alloc, bytes) {
        Ok(value) => shown_and_written(alloc, &value),
        Err(error) => refused(alloc, error),
    }
}

/// What is read, and how many bytes are left.
fn read_from_reader<T: Serialize + Deserialize + Shown + Drop>(
    alloc: Global,
    bytes: &[u8],
) -> Result<(String, usize), AllocError> {
    match from_reader::<T, IoReader<&[u8]>>(alloc, IoReader::new(alloc, bytes)) {
        Ok((value, reader)) => {
            let (behind, fetched) = reader.into_parts();
            let left = fetched.len().saturating_add(behind.len());
            Ok((shown_and_written(alloc, &value)?, left))
        }
        Err(error) => Ok((refused(alloc, error)?, 0)),
    }
}

/// The text of an error.
pub fn refused(alloc: Global, error: Error) -> Result<String, AllocError> {
    match error {
        Error::Memory => Err(AllocError),
        error => format!(in alloc; "refused {error:?}"),
    }
}

fn shown_and_written<T: Serialize + Shown>(alloc: Global, value: &T) -> Result<String, AllocError> {
    let text = value.text(alloc)?;
    let written = written(alloc, value)?;
    format!(in alloc; "{text} {written}")
}

/// The bytes that a value is written as, which are as many as are counted.
fn written<T: Serialize>(alloc: Global, value: &T) -> Result<String, AllocError> {
    match to_vec(alloc, value) {
        Ok(bytes) => written_bytes(alloc, bytes.as_slice(), serialized_size(value)),
        Err(error) => not_written(alloc, error, serialized_size(value)),
    }
}

fn written_bytes(
    alloc: Global,
    bytes: &[u8],
    counted: Result<usize, Error>,
) -> Result<String, AllocError> {
    let text = hex_of(alloc, bytes)?;
    if counted == Ok(bytes.len()) {
        return format!(in alloc; "written {text}");
    }
    format!(in alloc; "written {text}, but {counted:?} are counted")
}

fn not_written(
    alloc: Global,
    error: Error,
    counted: Result<usize, Error>,
) -> Result<String, AllocError> {
    if counted == Err(error) {
        return refused(alloc, error);
    }
    format!(in alloc; "refused {error:?}, but {counted:?} are counted")
}

/// How an array is written of the values that the bytes are a list of.
fn array_of<T: Serialize + Deserialize + Drop>(
    alloc: Global,
    bytes: &[u8],
) -> Result<String, AllocError> {
    match from_slice::<Vec<T>>(alloc, bytes) {
        Ok(values) => written(alloc, &Array::from(values)),
        Err(error) => refused(alloc, error),
    }
}

/// Whether each proper beginning of the bytes ends early.
fn beginnings<T: Serialize + Deserialize + Shown + Drop>(
    alloc: Global,
    bytes: &[u8],
) -> Result<String, AllocError> {
    for length in 0..bytes.len() {
        let front = bytes.get(..length).unwrap_or(&[]);
        let answer = read_as::<T>(alloc, front)?;
        if answer.as_str() != ENDS_EARLY {
            return format!(in alloc; "{length} {answer}");
        }
    }
    String::from_str(alloc, ENDS_EARLY)
}

/// Each byte that is read with these behind it, and how many bytes the value takes.
fn constructors<T: Deserialize + Drop>(alloc: Global, behind: &[u8]) -> Result<String, AllocError> {
    let mut text = String::new(alloc);
    for code in 0..=255u8 {
        append_constructor::<T>(alloc, code, behind, &mut text)?;
    }
    if text.is_empty() {
        return String::from_str(alloc, "none");
    }
    Ok(text)
}

fn append_constructor<T: Deserialize + Drop>(
    alloc: Global,
    code: u8,
    behind: &[u8],
    text: &mut String,
) -> Result<(), AllocError> {
    let mut bytes = Vec::from_slice(alloc, &[code])?;
    bytes.extend_from_slice(behind)?;
    let Some(size) = size_of_front::<T>(alloc, bytes.as_slice())? else {
        return Ok(());
    };
    if !text.is_empty() {
        text.push(' ')?;
    }
    write!(text, "{code:02x}:{size}")
}

/// How many bytes a value takes that is read from the front of these.
fn size_of_front<T: Deserialize + Drop>(
    alloc: Global,
    bytes: &[u8],
) -> Result<Option<usize>, AllocError> {
    let mut de = Deserializer::new(SliceReader::new(bytes));
    match T::deserialize(alloc, &mut de) {
        Ok(_) => Ok(Some(de.into_reader().bytes_consumed())),
        Err(Error::Memory) => Err(AllocError),
        Err(_) => Ok(None),
    }
}

/// Answers a question about a type whose values are lent from a slice.
pub fn lent<'a, T: BorrowDeserialize<'a> + Serialize + Shown + Drop>(
    alloc: Global,
    question: &'a Question<'_>,
) -> Result<Option<String>, AllocError> {
    if question.verb != Verb::As {
        return Ok(None);
    }
    Ok(Some(read_lent::<T>(alloc, question.named.bytes.as_slice())?))
}

fn read_lent<'a, T: BorrowDeserialize<'a> + Serialize + Shown + Drop>(
    alloc: Global,
    bytes: &'a [u8],
) -> Result<String, AllocError> {
    match borrow_from_slice::<T>(bytes) {
        Ok(value) => shown_and_written(alloc, &value),
        Err(error) => refused(alloc, error),
    }
}
