//! The words of the command line.

use shown_graphs::Form;
use std::alloc::Global;
use trait_pages::Stop;
use trait_texts::Options;

/// How many levels are shown where no number is given.
const DEPTH: usize = 100;

/// How the program is called.
pub(crate) const USAGE: &[u8] =
    b"traits [--as-rustc] [--definitions] [--why [--depth N] | --dot | --json | --rules | --check DATA] [FILE..]";

/// What is told of questions.
#[derive(Clone, Copy)]
pub(crate) enum How {
    /// What they came to.
    Lines,
    /// Why, as text, with goals that lie no more than so many steps below the question's.
    Why(usize),
    /// Why, in Graphviz's language.
    Dot,
    /// Why, as data.
    Data,
    /// The rules that they need.
    Rules,
    /// Whether the data in a file, the first of all, is accepted.
    Check,
}

impl How {
    /// The form of the graphs that are shown, if there are any.
    pub(crate) fn form(self) -> Option<Form> {
        match self {
            How::Why(depth) => Some(Form::Text { depth }),
            How::Dot => Some(Form::Dot),
            How::Data => Some(Form::Data),
            How::Lines | How::Rules | How::Check => None,
        }
    }
}

/// What is to be told, and the files that are read for it. Where there are none, standard input is read.
#[derive(Drop)]
pub(crate) struct Order<'a> {
    pub(crate) how: How,
    pub(crate) options: Options,
    pub(crate) files: Vec<&'a str>,
}

/// What the words ask for, the first of which is the program's name.
pub(crate) fn order_of<'a>(alloc: Global, words: &'a [String]) -> Result<Order<'a>, Stop> {
    let mut order = Order {
        how: How::Lines,
        options: Options {
            as_rustc: false,
            definitions: false,
        },
        files: Vec::new(alloc),
    };
    let mut is_depth = false;
    for word in words.iter().skip(1) {
        let word = word.as_str();
        if is_depth {
            order.how = How::Why(word.parse().ok().ok_or(Stop::Usage)?);
            is_depth = false;
        } else if word.starts_with("--") {
            is_depth = word == "--depth";
            take_option(&mut order, word)?;
        } else {
            order.files.push(word)?;
        }
    }
    if is_depth {
        Err(Stop::Usage)
    } else {
        Ok(order)
    }
}

// An option with two dashes. Only one may say what is told.
fn take_option(order: &mut Order<'_>, word: &str) -> Result<(), Stop> {
    let how = match word {
        "--as-rustc" => {
            order.options.as_rustc = true;
            return Ok(());
        }
        "--definitions" => {
            order.options.definitions = true;
            return Ok(());
        }
        "--depth" if matches!(order.how, How::Why(_)) => return Ok(()),
        "--why" => How::Why(DEPTH),
        "--dot" => How::Dot,
        "--json" => How::Data,
        "--rules" => How::Rules,
        "--check" => How::Check,
        _ => return Err(Stop::Usage),
    };
    if !matches!(order.how, How::Lines) {
        return Err(Stop::Usage);
    }
    order.how = how;
    Ok(())
}
