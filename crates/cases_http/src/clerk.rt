//! An answerer whose replies a script sets.

ghost use Rattle.std.specs.Prelude.{⊤, IfOk};
ghost use Rattle.cf_http.specs.Asking.{IsAnswerCode};

use cf_base::Kind;
use cf_http::{Answer, Request};
use cf_http_heads::Route;
use std::alloc::{AllocError, Global};

/// How a call in form is answered.
#[derive(Clone, Copy)]
pub enum Verdict {
    Accepted,
    Refused,
    DiskFault,
    NoMemory,
}

/// Answers a call, which stands in braces, by a verdict, and a look by its route. It counts what it
/// is asked.
#[derive(Drop)]
pub struct Clerk {
    pub alloc: Global,
    pub verdict: Verdict,
    pub asked: u64,
}

/// A code and a body.
#[derive(Drop)]
struct Reply {
    code: u16,
    text: Vec<u8>,
}

fn reply_of(alloc: Global, code: u16, text: &[u8]) -> Result<Reply, AllocError>
    requires { IsAnswerCode code }
    ensures { IfOk result (λ reply. IsAnswerCode reply.code) }
{
    let text = Vec::from_slice(alloc, text)?;
    Ok(Reply { code, text })
}

fn kind_name(kind: Kind) -> &'static str {
    match kind {
        Kind::Balance => "balance",
        Kind::Operating => "operating",
        Kind::Budget => "budget",
        Kind::Position => "position",
        Kind::Activities => "activities",
        Kind::Reconcile => "reconcile",
        Kind::Changes => "changes",
    }
}

/// Whether the bytes stand in braces, as a call does.
fn has_braces(bytes: &[u8]) -> bool {
    bytes.starts_with(b"{") && bytes.ends_with(b"}")
}

impl Clerk {
    fn reply_judged(&self) -> Result<Reply, AllocError>
        ensures { IfOk result (λ reply. IsAnswerCode reply.code) }
    {
        match self.verdict {
            Verdict::Accepted => reply_of(self.alloc, 200, b"{\"accepted\":true}"),
            Verdict::Refused => reply_of(self.alloc, 409, b"{\"refused\":true}"),
            Verdict::DiskFault => reply_of(self.alloc, 500, b"{\"disk\":true}"),
            Verdict::NoMemory => Err(AllocError),
        }
    }

    fn reply_call(&self, body: &[u8]) -> Result<Reply, AllocError>
        ensures { IfOk result (λ reply. IsAnswerCode reply.code) }
    {
        if has_braces(body) {
            self.reply_judged()
        } else {
            reply_of(self.alloc, 400, b"{\"form\":\"json\"}")
        }
    }

    fn reply(&self, request: &Request) -> Result<Reply, AllocError>
        ensures { IfOk result (λ reply. IsAnswerCode reply.code) }
    {
        match request.route {
            Route::Calls => self.reply_call(request.body.as_slice()),
            Route::Line { line, year } => {
                let text = format!(in self.alloc; "line {line} of {year}")?;
                reply_of(self.alloc, 200, text.as_bytes())
            }
            Route::Report { year, kind } => {
                let name = kind_name(kind);
                let text = format!(in self.alloc; "{name} of {year}")?;
                reply_of(self.alloc, 200, text.as_bytes())
            }
        }
    }
}

impl Answer for Clerk {
    ghost answers = { λ _ _ _ _. ⊤ };

    fn answer(&mut self, request: &Request, out: &mut Vec<u8>) -> Result<u16, AllocError> {
        self.asked = self.asked.saturating_add(1);
        let reply = self.reply(request)?;
        out.extend_from_slice(reply.text.as_slice())?;
        Ok(reply.code)
    }
}

/// Answers each request with one text.
#[derive(Drop)]
pub struct FixedAnswer;

impl Answer for FixedAnswer {
    ghost answers = { λ _ _ _ _. ⊤ };

    fn answer(&mut self, _request: &Request, out: &mut Vec<u8>) -> Result<u16, AllocError> {
        out.extend_from_slice(b"{\"at\":0}")?;
        Ok(200)
    }
}
