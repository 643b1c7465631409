//! Heads of HTTP/1.1 requests and the lines of answers: what the bytes of a request ask for, and
//! which bytes answer it.
#![tactic(auto)]

mod fields;
mod head;
mod lines;
mod route;
mod router;

pub use fields::{LONGEST_BODY, Refusal};
pub use head::{Front, Heading, LONGEST_HEAD, MOST_FIELDS, read_head};
pub use lines::{LINES_ROOM, no_memory, write_lines};
pub use route::{Method, Miss, Route};
pub use router::Routes;
