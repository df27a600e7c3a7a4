//! The two lines of data: the names of goals, and the page that is about them.

use crate::stop::Stop;
use json::{Reader, Scratch, Token, Writer};
use std::alloc::{AllocError, Global};

/// Data that was read.
#[derive(Drop)]
pub(super) struct Data<'a> {
    /// What each goal is called, by its number.
    pub(super) names: Vec<Vec<u8>>,
    /// A text that asks each of these goals.
    pub(super) questions: Vec<u8>,
    /// What is said of them.
    pub(super) page: &'a [u8],
}

/// Writes the line of names.
pub fn write_names(alloc: Global, names: &[Vec<u8>]) -> Result<Vec<u8>, AllocError> {
    let mut writer = Writer::new(Vec::new(alloc));
    writer.begin_object()?;
    writer.key("goals")?;
    writer.begin_array()?;
    for name in names {
        writer.string(std::str::from_utf8(name.as_slice()).unwrap_or(""))?;
    }
    writer.end_array()?;
    writer.end_object()?;
    let mut line = writer.into_inner();
    line.push(b'\n')?;
    Ok(line)
}

/// Reads data. What is said of goals is not looked at yet.
pub(super) fn read_data<'a>(alloc: Global, text: &'a [u8]) -> Result<Data<'a>, Stop> {
    let end = match text.iter().position(|byte| *byte == b'\n') {
        Some(end) => end,
        None => return Err(Stop::BadData(text.len())),
    };
    let (line, rest) = text.split_at(end);
    let Ok(line) = std::str::from_utf8(line) else {
        return Err(Stop::BadData(0));
    };
    let mut data = Data {
        names: Vec::new(alloc),
        questions: Vec::new(alloc),
        page: rest,
    };
    let mut scratch = Scratch::new(alloc);
    let mut reader = Reader::new(line, &mut scratch)?;
    if read_names(alloc, &mut reader, &mut data)? {
        Ok(data)
    } else {
        Err(Stop::BadData(reader.offset()))
    }
}

// Reads the line of names. Whether it is one.
fn read_names(
    alloc: Global,
    reader: &mut Reader<'_>,
    data: &mut Data<'_>,
) -> Result<bool, AllocError> {
    if !is_begun(reader) {
        return Ok(false);
    }
    for _ in 0..u64::MAX {
        match reader.next() {
            Some(Token::String(name)) => add_name(alloc, data, name)?,
            Some(Token::EndArray) => {
                return Ok(
                    matches!(reader.next(), Some(Token::EndObject)) && reader.next().is_none(),
                );
            }
            _ => return Ok(false),
        }
    }
    Ok(false)
}

// Whether the names follow.
fn is_begun(reader: &mut Reader<'_>) -> bool {
    matches!(reader.next(), Some(Token::BeginObject))
        && matches!(reader.next(), Some(Token::Key("goals")))
        && matches!(reader.next(), Some(Token::BeginArray))
}

fn add_name(alloc: Global, data: &mut Data<'_>, name: &str) -> Result<(), AllocError> {
    data.questions.extend_from_slice(name.as_bytes())?;
    data.questions.extend_from_slice(b"?\n")?;
    let mut own = Vec::new(alloc);
    own.extend_from_slice(name.as_bytes())?;
    data.names.push(own)?;
    Ok(())
}
