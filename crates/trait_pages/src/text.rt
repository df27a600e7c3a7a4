//! The texts that are read.

use crate::stop::Stop;
use line_texts::read_input;
use std::alloc::{AllocError, Global};
use std::fs::File;
use std::io::Write;
use trait_texts::Source;

/// The text of a file, and by what path the file was named.
#[derive(Drop)]
pub struct Text<'a> {
    pub name: &'a str,
    pub bytes: Vec<u8>,
}

/// The texts of the files of these paths, or standard input where there are none.
pub fn read_texts<'a>(rt: &HostRuntime, files: &[&'a str]) -> Result<Vec<Text<'a>>, Stop> {
    let alloc = rt.alloc();
    let mut texts = Vec::new(alloc);
    for name in files {
        let bytes = read_file(rt, name)?;
        texts.push(Text { name, bytes })?;
    }
    if files.is_empty() {
        let bytes = read_input(alloc, &mut rt.stdin())?;
        texts.push(Text { name: "-", bytes })?;
    }
    Ok(texts)
}

/// What the file of this path has.
pub fn read_file(rt: &HostRuntime, path: &str) -> Result<Vec<u8>, Stop> {
    match File::open(rt, path) {
        Ok(mut file) => Ok(read_input(rt.alloc(), &mut file)?),
        Err(error) => {
            let mut reason = Vec::new(rt.alloc());
            write!(reason, "{path} cannot be opened: {error}")?;
            Err(Stop::NotOpened(reason))
        }
    }
}

/// The texts as they are read. There is room for one more.
pub fn sources_of<'a>(alloc: Global, texts: &'a [Text<'_>]) -> Result<Vec<Source<'a>>, AllocError> {
    let mut sources = Vec::with_capacity(alloc, texts.len().saturating_add(1))?;
    for text in texts {
        sources.push(Source {
            name: text.name.as_bytes(),
            text: text.bytes.as_slice(),
        })?;
    }
    Ok(sources)
}
