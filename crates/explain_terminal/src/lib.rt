//! What the program `explain` takes from its command line, and what it tells on a terminal. It is a crate of its own since it
//! knows neither questions nor graphs, so it is proved beside the search.
#![tactic(auto)]

mod arguments;
mod progress;

pub use arguments::{Order, Task, order_of};
pub use progress::OnTerminal;
