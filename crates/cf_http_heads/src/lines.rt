//! The lines of an answer before its body. They take no memory.

ghost use Rattle.std.specs.Prelude.{◌≡◌, ◌+◌, ◌<◌, ◌≤◌, ◌++◌, [], ◌∷◌, codes, length, decimal, vec_len, vec_capacity};
ghost use Rattle.http.specs.StatusCode.{IsStatusCode, code_digits};
ghost use Rattle.cf_http_heads.specs.Answers.{joined, phrase_of, allow_line, close_line, lines_of, refusal_code, refusal_body, miss_code, miss_allow, miss_body, memory_answer};

use crate::fields::Refusal;
use crate::route::{Method, Miss};
use http::StatusCode;
use itoa::Buffer;

/// The room that the lines need.
pub const LINES_ROOM: usize = 256;

/// The answer where there is no memory.
pub const NO_MEMORY: &[u8] =
    b"HTTP/1.1 503 Service Unavailable\r\ncontent-type: application/json\r\ncontent-length: 15\r\nconnection: close\r\n\r\n{\"memory\":true}";

/// Appends a piece where there is room for it.
fn put(out: &mut Vec<u8>, piece: &str)
    requires { vec_len out.old + length piece.now ≤ vec_capacity out.old }
    ensures text { out.new.items ≡ out.old.items ++ piece.now }
    ensures length { vec_len out.new ≡ vec_len out.old + length piece.now }
    ensures capacity { vec_capacity out.old ≤ vec_capacity out.new }
{
    let _ = out.extend_from_slice(piece.as_bytes());
}

fn digits(code: u16) -> &'static str
    requires { IsStatusCode code }
    ensures { result.now ≡ code_digits code }
{
    match StatusCode::from_u16(code) {
        Ok(status) => status.as_str(),
        Err(_) => "",
    }
}

fn phrase(code: u16) -> &'static str
    ensures text { result.now ≡ phrase_of code }
    ensures length { length result.now ≤ 21 }
{
    match code {
        200 => "OK",
        400 => "Bad Request",
        404 => "Not Found",
        405 => "Method Not Allowed",
        409 => "Conflict",
        413 => "Content Too Large",
        500 => "Internal Server Error",
        501 => "Not Implemented",
        _ => "Service Unavailable",
    }
}

fn put_allow(out: &mut Vec<u8>, allow: Option<Method>)
    requires { vec_len out.old + 13 ≤ vec_capacity out.old }
    ensures text { out.new.items ≡ out.old.items ++ allow_line allow }
    ensures length { vec_len out.new ≤ vec_len out.old + 13 }
    ensures capacity { vec_capacity out.old ≤ vec_capacity out.new }
{
    match allow {
        None => {}
        Some(Method::Get) => put(out, "allow: GET\r\n"),
        Some(Method::Post) => put(out, "allow: POST\r\n"),
    }
}

fn put_close(out: &mut Vec<u8>, closes: bool)
    requires { vec_len out.old + 19 ≤ vec_capacity out.old }
    ensures text { out.new.items ≡ out.old.items ++ close_line closes }
    ensures length { vec_len out.new ≤ vec_len out.old + 19 }
    ensures capacity { vec_capacity out.old ≤ vec_capacity out.new }
{
    if closes {
        put(out, "connection: close\r\n");
    }
}

fn put_status(out: &mut Vec<u8>, code: u16)
    requires code { IsStatusCode code }
    requires room { vec_len out.old + 40 ≤ vec_capacity out.old }
    ensures text { out.new.items
        ≡ out.old.items ++ joined
        (codes "HTTP/1.1 " ∷ code_digits code ∷ codes " " ∷ phrase_of code ∷ []) }
    ensures length { vec_len out.new ≤ vec_len out.old + 40 }
    ensures capacity { vec_capacity out.old ≤ vec_capacity out.new }
{
    put(out, "HTTP/1.1 ");
    put(out, digits(code));
    put(out, " ");
    put(out, phrase(code));
}

fn put_length(out: &mut Vec<u8>, length: usize)
    requires room { vec_len out.old + 80 ≤ vec_capacity out.old }
    ensures text { out.new.items
        ≡ out.old.items ++ joined
        (codes "\r\ncontent-type: application/json\r\ncontent-length: " ∷ decimal length
        ∷ codes "\r\n" ∷ []) }
    ensures length { vec_len out.new ≤ vec_len out.old + 80 }
    ensures capacity { vec_capacity out.old ≤ vec_capacity out.new }
{
    put(
        out,
        "\r\ncontent-type: application/json\r\ncontent-length: ",
    );
    let mut buffer = Buffer::new();
    put(out, buffer.format(length));
    put(out, "\r\n");
}

/// Writes the lines before a body of so many bytes.
#[tactic(auto, unfolding(crate::specs::Answers::lines_of))]
pub fn write_lines(out: &mut Vec<u8>, code: u16, length: usize, allow: Option<Method>, closes: bool)
    requires code { IsStatusCode code }
    requires room { 256 ≤ vec_capacity out.old }
    ensures text { out.new.items ≡ lines_of code length allow closes }
    ensures capacity { vec_capacity out.old ≤ vec_capacity out.new }
{
    out.clear();
    put_status(out, code);
    put_length(out, length);
    put_allow(out, allow);
    put_close(out, closes);
    put(out, "\r\n");
}

impl Refusal {
    /// The status code that a refused request is answered with.
    pub fn code(self) -> u16
        ensures value { result ≡ refusal_code self }
        ensures status { IsStatusCode result }
    {
        match self {
            Refusal::Head => 400,
            Refusal::Coding => 501,
            Refusal::Long => 413,
        }
    }

    /// The body of that answer, which names the refusal.
    pub fn body(self) -> &'static [u8]
        ensures { result.now ≡ refusal_body self }
    {
        match self {
            Refusal::Head => b"{\"form\":\"head\"}",
            Refusal::Coding => b"{\"form\":\"coding\"}",
            Refusal::Long => b"{\"form\":\"long\"}",
        }
    }
}

impl Miss {
    /// The status code that a request without a route is answered with.
    pub fn code(self) -> u16
        ensures value { result ≡ miss_code self }
        ensures status { IsStatusCode result }
    {
        match self {
            Miss::NoRoute => 404,
            Miss::WrongMethod(_) => 405,
        }
    }

    /// The method that the path has, for the field `allow`, where another was asked for.
    pub fn allow(self) -> Option<Method>
        ensures { result ≡ miss_allow self }
    {
        match self {
            Miss::NoRoute => None,
            Miss::WrongMethod(method) => Some(method),
        }
    }

    /// The body of that answer, which names what there isn't.
    pub fn body(self) -> &'static [u8]
        ensures { result.now ≡ miss_body self }
    {
        match self {
            Miss::NoRoute => b"{\"form\":\"route\"}",
            Miss::WrongMethod(_) => b"{\"form\":\"method\"}",
        }
    }
}

/// The answer where there is no memory.
pub fn no_memory() -> &'static [u8]
    ensures { result.now ≡ memory_answer }
{
    NO_MEMORY
}
