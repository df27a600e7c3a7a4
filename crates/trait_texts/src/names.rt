//! Names and their numbers.

use crate::refusal::{Stop, push};
use std::alloc::Global;
use std::collections::HashMap;

/// The types that are built in and have a name.
pub(crate) const PRIMITIVES: &[&[u8]] = &[
    b"!", b"bool", b"char", b"str", b"i8", b"i16", b"i32", b"i64", b"i128", b"isize", b"u8",
    b"u16", b"u32", b"u64", b"u128", b"usize", b"f32", b"f64",
];

/// The number of `!`, the first primitive type.
pub(crate) const NEVER: usize = 0;

/// Words that are no names.
const KEYWORDS: &[&[u8]] = &[
    b"_",
    b"abstract",
    b"as",
    b"async",
    b"await",
    b"become",
    b"box",
    b"break",
    b"const",
    b"continue",
    b"crate",
    b"do",
    b"dyn",
    b"else",
    b"enum",
    b"extern",
    b"false",
    b"final",
    b"fn",
    b"for",
    b"gen",
    b"if",
    b"impl",
    b"in",
    b"let",
    b"loop",
    b"macro",
    b"match",
    b"mod",
    b"move",
    b"mut",
    b"override",
    b"priv",
    b"pub",
    b"ref",
    b"return",
    b"self",
    b"Self",
    b"static",
    b"struct",
    b"super",
    b"trait",
    b"true",
    b"try",
    b"type",
    b"typeof",
    b"unsafe",
    b"unsized",
    b"use",
    b"virtual",
    b"where",
    b"while",
    b"yield",
];

/// Names, each with a number: those of the primitive types come first, and then keywords, and `Sized`.
#[derive(Drop)]
pub(crate) struct Names<'a> {
    texts: Vec<&'a [u8]>,
    // The numbers of short names, by their bytes as one number, and of others.
    short: HashMap<u64, usize>,
    long: HashMap<&'a [u8], usize>,
}

impl<'a> Names<'a> {
    /// The names of primitive types, and keywords.
    pub(crate) fn new(alloc: Global) -> Result<Names<'a>, Stop> {
        let mut names = Names {
            texts: Vec::new(alloc),
            short: HashMap::new(alloc),
            long: HashMap::new(alloc),
        };
        names.enter_all()?;
        Ok(names)
    }

    fn enter_all(&mut self) -> Result<(), Stop> {
        self.enter(PRIMITIVES)?;
        self.enter(KEYWORDS)?;
        self.enter(&[b"Sized"])
    }

    /// The number of `Sized`.
    pub(crate) fn sized() -> usize {
        PRIMITIVES.len() + KEYWORDS.len()
    }

    fn enter(&mut self, words: &'static [&'static [u8]]) -> Result<(), Stop> {
        for word in words {
            self.number(*word)?;
        }
        Ok(())
    }

    /// The number of a name, which is the next one where the name is new.
    pub(crate) fn number(&mut self, name: &'a [u8]) -> Result<usize, Stop> {
        let count = self.texts.len();
        let number = match packed(name) {
            Some(bytes) => *self.short.entry(bytes)?.or_insert(count),
            None => *self.long.entry(name)?.or_insert(count),
        };
        if number == count {
            push(&mut self.texts, name)?;
        }
        Ok(number)
    }

    /// Whether the name of this number is a keyword.
    pub(crate) fn is_keyword(number: usize) -> bool {
        number >= PRIMITIVES.len() && number < PRIMITIVES.len() + KEYWORDS.len()
    }

    /// The texts of all names, by their numbers.
    pub(crate) fn into_texts(self) -> Vec<&'a [u8]> {
        let Names { texts, short, long } = self;
        drop(short);
        drop(long);
        texts
    }
}

// The bytes of a name as one number, if there are up to eight. None of them is zero.
fn packed(name: &[u8]) -> Option<u64> {
    if name.len() > 8 {
        return None;
    }
    let mut bytes = 0u64;
    for byte in name {
        bytes = bytes << 8 | *byte as u64;
    }
    Some(bytes)
}
