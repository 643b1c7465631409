//! The head of a request, as a text begins with it.

ghost use Rattle.std.specs.Prelude.{◌≡◌, ◌≤◌, ◌<◌, ◌==◌, ◌||◌, map, length};
ghost use Rattle.httparse.specs.Borrowed.{header_parts};
ghost use Rattle.cf_http_heads.specs.Heads.{heading_by, IsFront, IsShortFront};

use crate::fields::{Refusal, is_closing, length_of_body};
use crate::route::{Miss, Route};
use crate::router::Routes;
use httparse::{EMPTY_HEADER, Header, Status};

/// The most bytes of a head (own).
pub const LONGEST_HEAD: usize = 16_384;

/// The most fields of a head (own).
pub const MOST_FIELDS: usize = 64;

/// What a head asks for.
#[derive(Clone, Copy)]
pub struct Heading {
    /// How many bytes the head has.
    pub length: usize,
    /// Whether its method is HEAD, so that the answer has no body (RFC 9110: a server sends no
    /// content to HEAD).
    pub is_head: bool,
    /// Whether the link is to be closed after the answer.
    pub closes: bool,
    /// The length of the request's body.
    pub body: Result<u32, Refusal>,
    /// Where the request goes.
    pub ask: Result<Route, Miss>,
}

/// What stands at the front of a text.
#[derive(Clone, Copy)]
pub enum Front {
    Head(Heading),
    /// No head, whatever follows.
    NoHead,
    /// No head yet.
    Open,
}

/// What a head asks for, by its parts.
fn heading_in(
    routes: &Routes,
    length: usize,
    method: &str,
    target: &str,
    minor: u8,
    headers: &[Header<'_>],
) -> Heading
    ensures { result ≡ heading_by length method.now target.now minor
        (map header_parts headers.now) }
{
    Heading {
        length,
        is_head: method == "HEAD",
        closes: minor == 0 || is_closing(headers),
        body: length_of_body(minor, headers),
        ask: routes.ask_in(method, target),
    }
}

/// What stands at the front of a text of at most 16,384 bytes.
fn read_short(routes: &Routes, text: &[u8]) -> Front
    requires { length text.now ≤ 16384 }
    ensures { IsShortFront text.now result }
{
    let mut headers = [EMPTY_HEADER; MOST_FIELDS];
    let mut request = httparse::Request::new(&mut headers);
    match request.parse(text) {
        Ok(Status::Complete(length)) => match (request.method, request.path, request.version) {
            (Some(method), Some(target), Some(minor)) => {
                if request.headers.len() > MOST_FIELDS {
                    return Front::NoHead;
                }
                Front::Head(heading_in(routes, length, method, target, minor, request.headers))
            }
            _ => Front::Open,
        },
        Ok(Status::Partial) => Front::Open,
        Err(_) => Front::NoHead,
    }
}

/// What stands at the front of a text.
pub fn read_head(routes: &Routes, text: &[u8]) -> Front
    ensures { IsFront text.now result }
{
    let (front, _) = text.split_at(text.len().min(LONGEST_HEAD));
    match read_short(routes, front) {
        Front::Head(heading) => Front::Head(heading),
        Front::NoHead => Front::NoHead,
        Front::Open => {
            if text.len() > LONGEST_HEAD {
                Front::NoHead
            } else {
                Front::Open
            }
        }
    }
}
