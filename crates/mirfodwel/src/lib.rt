//! What other languages call: texts of rules go in and their answers come out, and sessions over rules that lie in the
//! caller's memory. From C a slice is an address and a length, and an `alloc` takes nothing.
//!
//! What is trusted here, as nothing checks it: that each address is that of so many elements which the caller has, none of
//! them null, and none that is written to passed twice; that a handle is all zero before it is first opened, and then changed by
//! these functions alone; that rows stay as they are while a session over them is open, though they are lent for ever as far as
//! proofs know; and `malloc`, `realloc` and `free`, which are the program's.
//!
//! | File of `specs/` | Has |
//! |---|---|
//! | `Handed` | how what a call came to leaves by a buffer |
//! | `Texts`, `Reading` | what calls on texts come to |
//! | `Held`, `Rows` | what a handle owns, and the rows of a session |
//! | `Opening` | how a session begins, also where it is opened again |
//! | `Asked`, `Causes`, `Given` | what calls on sessions come to |
//! | `TableText`, `Labels` | the text that is shown of rows, and what goals are called there |
#![tactic(auto)]

mod address;
mod asking;
mod buffers;
mod bytes;
mod causes;
mod changing;
mod explaining;
mod graphs;
mod handle;
mod inside;
mod labels;
mod lent;
mod opening;
mod reading;
mod reopening;
mod status;
mod table_text;
mod texts;
