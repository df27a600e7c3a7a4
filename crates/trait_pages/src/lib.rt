//! Goals of traits on pages: the texts that declare and ask, what each goal is called and what it came to, the rules that
//! goals need as a table, and whether data that was read is about them.
//!
//! Nothing here asks a goal, so all of it is checked beside the search.
//!
//! | File of `specs/` | Has |
//! |---|---|
//! | `Asked` | the goals of questions |
//! | `Lines` | the lines that tell what questions came to |
//! | `Stop` | exit statuses |
#![tactic(auto)]

mod checking;
mod lines;
mod names;
mod reading;
mod stop;
mod table;
mod text;

pub use checking::{check, write_names};
pub use lines::{Came, is_maybe, tell_all};
pub use names::Names;
pub use reading::{all_goals, declared_in};
pub use stop::{Stop, status_told};
pub use table::write_table;
pub use text::{Text, read_file, read_texts, sources_of};
