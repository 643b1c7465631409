//! A server of HTTP/1.1 links: requests come on a link one after another, and each is answered
//! before the next is read.
#![tactic(auto)]

mod answer;
mod bytes;
mod door;
mod end;
mod laws;
mod link;
mod reading;
mod request;
mod sending;
mod serve;
mod server;
mod turn;

pub use answer::Answer;
pub use bytes::Bytes;
pub use door::{Door, serve_door};
pub use end::{DoorEnd, LinkEnd};
pub use laws::{one_request, only_two_choices};
pub use link::Link;
pub use request::Request;
pub use serve::{MOST_ANSWERS, serve_link};
