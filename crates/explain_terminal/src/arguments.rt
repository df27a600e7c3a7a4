//! The words of the command line.
ghost use Rattle.std.specs.Prelude.{◌≡◌, ◌≢◌, ◌≤◌, ◌⊎◌, IfErr};
ghost use Rattle.clap.specs.Words.{kind_of};

use clap::error::ErrorKind;
use clap::{Arg, ArgAction, ArgMatches, Command, Error, value_parser};
use graph_pages::Form;
use std::alloc::Global;

/// What the program is to do.
#[derive(Clone, Copy)]
pub enum Task {
    /// Show answers in this form.
    Explain(Form),
    /// Check data.
    Check,
}

/// A task, and the path of the file that is read for it. Where there is none, standard input is read.
#[derive(Clone, Copy)]
pub struct Order<'a> {
    pub task: Task,
    pub file: Option<&'a str>,
}

/// How many levels are shown where no number is given.
const DEPTH: &str = "100";

/// What the words ask for, the first of which is the program's name. Where they name no task, help or what is wrong was written,
/// and this is the exit status, by `status_of_error`. What the command line is read with is known to this crate alone.
pub fn order_of<'a>(rt: &HostRuntime, words: &'a [String]) -> Result<Order<'a>, u8>
    ensures { IfErr result (λ status. status ≤ 4) }
{
    match order_in(rt.alloc(), words) {
        Ok(order) => Ok(order),
        Err(error) => {
            let _ = error.print(rt);
            Err(status_of_error(&error))
        }
    }
}

/// What the words ask for. An error has the usage.
fn order_in<'a>(alloc: Global, words: &'a [String]) -> Result<Order<'a>, Error> {
    let matches = command(alloc)?.try_get_matches_from(words)?;
    Ok(Order {
        task: task_of(&matches),
        file: matches.get_str("file"),
    })
}

/// The exit status where the words name no task: 0 where help was asked for, 4 where memory was out, and 2 where the words are
/// wrong.
fn status_of_error(error: &Error) -> u8
    ensures shown { (kind_of error.now ≡ ErrorKind.DisplayHelp)
        ⊎ (kind_of error.now ≡ ErrorKind.DisplayVersion) → result ≡ 0 }
    ensures memory { kind_of error.now ≡ ErrorKind.OutOfMemory → result ≡ 4 }
    ensures wrong { kind_of error.now ≢ ErrorKind.DisplayHelp
        → kind_of error.now ≢ ErrorKind.DisplayVersion
        → kind_of error.now ≢ ErrorKind.OutOfMemory → result ≡ 2 }
    ensures status { result ≤ 4 }
{
    match error.kind() {
        ErrorKind::DisplayHelp | ErrorKind::DisplayVersion => 0,
        ErrorKind::OutOfMemory => 4,
        _ => 2,
    }
}

fn task_of(matches: &ArgMatches<'_>) -> Task {
    if matches.get_flag("check") {
        Task::Check
    } else if matches.get_flag("json") {
        Task::Explain(Form::Data)
    } else if matches.get_flag("dot") {
        Task::Explain(Form::Dot)
    } else {
        let depth = matches.get_one::<usize>("depth").unwrap_or(0);
        Task::Explain(Form::Text { depth })
    }
}

fn command<'a>(alloc: Global) -> Result<Command<'a>, Error> {
    let command = Command::new(alloc, "explain")
        .about("Reads rules and questions, and shows why each answer holds")
        .arg(depth(alloc))?
        .arg(dot(alloc))?;
    Ok(
        command
            .arg(json(alloc)?)?
            .arg(check(alloc)?)?
            .arg(file(alloc))?,
    )
}

fn depth<'a>(alloc: Global) -> Arg<'a> {
    Arg::new(alloc, "depth")
        .long("depth")
        .value_name("N")
        .help("Leaves out goals more than N steps below the question's, in text")
        .value_parser(value_parser!(usize))
        .default_value(DEPTH)
}

fn dot<'a>(alloc: Global) -> Arg<'a> {
    Arg::new(alloc, "dot")
        .long("dot")
        .help("Writes the graphs in Graphviz's language")
        .action(ArgAction::SetTrue)
}

fn json<'a>(alloc: Global) -> Result<Arg<'a>, Error> {
    let json = Arg::new(alloc, "json")
        .long("json")
        .help("Writes the graphs as data")
        .action(ArgAction::SetTrue)
        .conflicts_with("dot")?;
    Ok(json)
}

fn check<'a>(alloc: Global) -> Result<Arg<'a>, Error> {
    let check = Arg::new(alloc, "check")
        .long("check")
        .help("Checks graphs that --json wrote")
        .action(ArgAction::SetTrue)
        .conflicts_with("dot")?
        .conflicts_with("json")?;
    Ok(check)
}

fn file<'a>(alloc: Global) -> Arg<'a> {
    Arg::new(alloc, "file").value_name("FILE").help(
        "The rules and questions, or with --check the data; without it standard input is read",
    )
}
