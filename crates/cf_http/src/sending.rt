//! Answers are sent on a link.

ghost use Rattle.std.specs.Prelude.{◌≡◌, ◌⊎◌, ◌≤◌, vec_capacity};
ghost use Rattle.http.specs.StatusCode.{IsStatusCode};
ghost use Rattle.cf_http_heads.specs.Answers.{answer_bytes, body_for, memory_answer, refusal_answer};
ghost use Rattle.cf_http_heads.specs.declared.lines.TheConstants.{LINES_ROOM};
ghost use Rattle.cf_http.specs.Links.{Counts, FaultsOf, OnlySends, Sends};
ghost use Rattle.cf_http.specs.Serving.{Gave};

use crate::end::LinkEnd;
use crate::link::Link;
use cf_base::Failed;
use cf_http_heads::{Method, Refusal, no_memory, write_lines};

/// Sends all of it, or a front of it where a write fails.
pub fn send_all<L: Link>(link: &mut L, bytes: &[u8]) -> Result<(), Failed>
    ensures sends { Sends (L.tells link.old) (L.tells link.new) bytes.now result }
    ensures faults { Counts
        (L.tells link.old).output.faults (L.tells link.new).output.faults result }
    ensures stays { OnlySends (L.tells link.old) (L.tells link.new) }
{
    let mut rest = bytes;
    while !rest.is_empty() {
        let count = link.write(rest)?;
        (_, rest) = rest.split_at(count);
    }
    Ok(())
}

/// What an answer says beside its body.
#[derive(Clone, Copy)]
pub struct Told {
    pub code: u16,
    pub allow: Option<Method>,
    pub closes: bool,
    pub is_head: bool,
}

/// The body that follows the lines: none after HEAD.
fn shown(is_head: bool, body: &[u8]) -> &[u8]
    ensures { result.now ≡ body_for is_head body.now }
{
    if is_head { &[] } else { body }
}

/// Sends an answer.
pub fn send_answer<L: Link>(
    link: &mut L,
    lines: &mut Vec<u8>,
    told: Told,
    body: &[u8],
) -> Result<(), Failed>
    requires code { IsStatusCode told.code }
    requires room { LINES_ROOM ≤ vec_capacity lines.old }
    ensures sends { Sends (L.tells link.old) (L.tells link.new)
        (answer_bytes told.code told.allow told.closes told.is_head body.now) result }
    ensures capacity { vec_capacity lines.old ≤ vec_capacity lines.new }
    ensures faults { Counts
        (L.tells link.old).output.faults (L.tells link.new).output.faults result }
    ensures stays { OnlySends (L.tells link.old) (L.tells link.new) }
{
    write_lines(lines, told.code, body.len(), told.allow, told.closes);
    match send_all(link, lines.as_slice()) {
        Ok(()) => {}
        Err(failed) => return Err(failed),
    }
    match send_all(link, shown(told.is_head, body)) {
        Ok(()) => Ok(()),
        Err(failed) => Err(failed),
    }
}

/// Sends the answer where there is no memory, after which the link is closed.
pub fn send_no_memory<L: Link>(link: &mut L) -> LinkEnd
    ensures gave { Gave result (L.tells link.old) (L.tells link.new) memory_answer }
    ensures how { (result ≡ LinkEnd.NoMemory) ⊎ (result ≡ LinkEnd.WriteFault) }
    ensures faults { FaultsOf (L.tells link.old) (L.tells link.new) result }
    ensures stays { OnlySends (L.tells link.old) (L.tells link.new) }
{
    match send_all(link, no_memory()) {
        Ok(()) => LinkEnd::NoMemory,
        Err(_) => LinkEnd::WriteFault,
    }
}

/// Sends the answer to a refused head, after which the link is closed.
pub fn send_refusal<L: Link>(
    link: &mut L,
    lines: &mut Vec<u8>,
    is_head: bool,
    why: Refusal,
) -> LinkEnd
    requires { LINES_ROOM ≤ vec_capacity lines.old }
    ensures gave { Gave result (L.tells link.old) (L.tells link.new) (refusal_answer is_head why) }
    ensures how { (result ≡ LinkEnd.Closed) ⊎ (result ≡ LinkEnd.WriteFault) }
    ensures capacity { vec_capacity lines.old ≤ vec_capacity lines.new }
    ensures faults { FaultsOf (L.tells link.old) (L.tells link.new) result }
    ensures stays { OnlySends (L.tells link.old) (L.tells link.new) }
{
    let told = Told {
        code: why.code(),
        allow: None,
        closes: true,
        is_head,
    };
    match send_answer(link, lines, told, why.body()) {
        Ok(()) => LinkEnd::Closed,
        Err(_) => LinkEnd::WriteFault,
    }
}
