//! The words of a text.
ghost use Rattle.std.specs.Prelude.{◌≤◌, IfSome, length};

use crate::names::{NEVER, Names};
use crate::refusal::Stop;

/// What a word is.
#[derive(Clone, Copy)]
pub(crate) enum Kind {
    /// A blank or a comment, which is no word.
    Blank,
    /// A letter or `_`, and more of these and digits, and no keyword.
    Name,
    /// `'a`
    Lifetime,
    Number,
    /// A text in quotes.
    Quoted,
    /// `::`, `->`, a keyword, or what else stands there, byte by byte.
    Mark,
    /// `/*` of a comment without an end.
    OpenComment,
    /// The end of the text.
    End,
}

/// A word of a text.
#[derive(Clone, Copy)]
pub(crate) struct Token<'a> {
    pub(crate) text: &'a [u8],
    pub(crate) kind: Kind,
    /// The number of a name, a keyword or the text of a number; of other words that of `!`.
    pub(crate) name: usize,
}

/// What is left of a text.
#[derive(Clone, Copy)]
pub(crate) struct Words<'a> {
    rest: &'a [u8],
}

// Bytes that stand together.
#[derive(Clone, Copy)]
enum Run {
    Blank,
    Name,
    // Bytes of letters that are not ASCII's.
    Foreign,
    Line,
    Quoted,
}

impl<'a> Words<'a> {
    /// All of the text.
    pub(crate) fn of(text: &'a [u8]) -> Words<'a> {
        Words { rest: text }
    }

    /// Takes the next word. A name that is a keyword is a mark.
    pub(crate) fn next_token(&mut self, names: &mut Names<'a>) -> Result<Token<'a>, Stop> {
        let (kind, text) = self.next_word();
        let mut token = Token {
            text,
            kind,
            name: NEVER,
        };
        if let Kind::Name | Kind::Number = kind {
            token.name = names.number(text)?;
            if Names::is_keyword(token.name) {
                token.kind = Kind::Mark;
            }
        }
        Ok(token)
    }

    // Takes the next word. Behind the last one the text ends, however often that is asked.
    fn next_word(&mut self) -> (Kind, &'a [u8]) {
        for _ in 0..u64::MAX {
            let (kind, length) = first_piece(self.rest);
            let Some((word, behind)) = self.rest.split_at_checked(length) else {
                break;
            };
            self.rest = without_blank(behind);
            if !matches!(kind, Kind::Blank) {
                return (kind, word);
            }
        }
        (Kind::End, b"")
    }
}

/// The line and the word of this number in a text, both counted, from 1 and from 0; how many words there are with the end, if they
/// are no more.
pub(crate) fn find_word(text: &[u8], number: usize) -> Result<(usize, &[u8]), usize> {
    let mut words = Words::of(text);
    for count in 0..usize::MAX {
        let (kind, word) = words.next_word();
        if count == number {
            return Ok((line_behind(text, words.rest.len()), word));
        }
        if let Kind::End = kind {
            return Err(count + 1);
        }
    }
    Err(usize::MAX)
}

// The line that is reached where so many bytes are left of a text. No word goes on in another line.
fn line_behind(text: &[u8], left: usize) -> usize {
    let mut line = 1usize;
    for byte in text.iter().take(text.len().saturating_sub(left)) {
        if *byte == b'\n' {
            line = line.saturating_add(1);
        }
    }
    line
}

// What is left behind the one blank that most words have behind them.
fn without_blank(rest: &[u8]) -> &[u8] {
    match rest {
        [b' ', behind @ ..] => behind,
        _ => rest,
    }
}

// What the text begins with, and how many bytes of it are of this kind.
fn first_piece(rest: &[u8]) -> (Kind, usize) {
    let Some((first, behind)) = rest.split_first() else {
        return (Kind::End, 0);
    };
    match *first {
        b'a'..=b'z' | b'A'..=b'Z' | b'_' => (Kind::Name, 1 + run_length(behind, Run::Name)),
        b' ' | b'\n' | b'\t' | b'\r' | 11 | 12 => (Kind::Blank, 1 + run_length(behind, Run::Blank)),
        b'0'..=b'9' => (Kind::Number, 1 + run_length(behind, Run::Name)),
        b'/' => slash(rest),
        b':' if behind.starts_with(b":") => (Kind::Mark, 2),
        b'-' if behind.starts_with(b">") => (Kind::Mark, 2),
        b'\'' if begins_name(behind) => (Kind::Lifetime, 1 + run_length(behind, Run::Name)),
        b'"' => quoted(behind),
        128.. => (Kind::Mark, 1 + run_length(behind, Run::Foreign)),
        _ => (Kind::Mark, 1),
    }
}

// A comment, or a mark.
fn slash(rest: &[u8]) -> (Kind, usize) {
    match rest {
        [b'/', b'/', ..] => (Kind::Blank, run_length(rest, Run::Line)),
        [b'/', b'*', ..] => match comment_length(rest) {
            Some(length) => (Kind::Blank, length),
            None => (Kind::OpenComment, 2),
        },
        _ => (Kind::Mark, 1),
    }
}

fn begins_name(rest: &[u8]) -> bool {
    match rest {
        [byte, ..] => goes_on(Run::Name, *byte) && !byte.is_ascii_digit(),
        [] => false,
    }
}

// A text in quotes, by what stands behind the first one, which is a mark if no other one stands in this line.
fn quoted(within: &[u8]) -> (Kind, usize) {
    let length = run_length(within, Run::Quoted);
    match within.get(length) {
        Some(b'"') => (Kind::Quoted, length.saturating_add(2)),
        _ => (Kind::Mark, 1),
    }
}

fn goes_on(run: Run, byte: u8) -> bool {
    match run {
        Run::Blank => matches!(byte, b' ' | b'\n' | b'\t' | b'\r' | 11 | 12),
        Run::Name => byte.is_ascii_alphanumeric() || byte == b'_',
        Run::Foreign => byte >= 128,
        Run::Line => byte != b'\n',
        Run::Quoted => byte != b'"' && byte != b'\n',
    }
}

// How many bytes of the run the text begins with.
fn run_length(rest: &[u8], run: Run) -> usize
    ensures { result ≤ length rest.now }
{
    for (place, byte) in rest.iter().enumerate() {
        if !goes_on(run, *byte) {
            return place;
        }
    }
    rest.len()
}

// Comments may be nested.
fn comment_length(rest: &[u8]) -> Option<usize>
    ensures { IfSome result (λ count. count ≤ length rest.now) }
{
    let mut depth = 0usize;
    let mut before = b' ';
    for (place, byte) in rest.iter().enumerate() {
        match (before, *byte) {
            (b'/', b'*') => {
                depth = depth.saturating_add(1);
                before = b' ';
            }
            (b'*', b'/') => {
                depth = depth.saturating_sub(1);
                if depth == 0 {
                    return Some(place + 1);
                }
                before = b' ';
            }
            (_, other) => before = other,
        }
    }
    None
}
