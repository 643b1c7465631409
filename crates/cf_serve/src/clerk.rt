//! The clerk at a door: reads the call that a request asks, posts it to the hall, and writes the
//! reply.

ghost use Rattle.std.specs.Prelude.{◌≡◌, ◌⊎◌, ◌+◌, ◌≤◌, ◌++◌, IfOk, OnOk, OnErr};
ghost use Rattle.std.specs.Vec.{vec_len, vec_capacity};
ghost use Rattle.cf_calls.specs.Common.{IsCallInForm};
ghost use Rattle.cf_calls.specs.declared.reply.Posted.TheVariants as posted;
ghost use Rattle.cf_http_heads.specs.Routes.{IsRouteInForm};
ghost use Rattle.cf_json_members.specs.Faults.{Gives};
ghost use Rattle.cf_json_replies.specs.Replies.{IsBrief, form_text, text};
ghost use Rattle.cf_serve_laws.specs.Clerks as clerks;
ghost use Rattle.cf_serve_laws.specs.Clerks.{AnswersCall, IsWritten, asked_by, code_by, code_of};
ghost use Rattle.cf_serve_laws.specs.PassTalks.{Hears};

use cf_calls::{Body, Call, Look, Posted, Read};
use cf_disk::Disk;
use cf_hall::{HallPass, NoGate, Shared};
use cf_hall_names::City;
use cf_http::{Answer, Request};
use cf_http_heads::Route;
use cf_json::{CallRefused, FormFault, read_call};
use cf_json_replies::{write_form, write_posted};
use std::alloc::{AllocError, Global};
use std::marker::Model;
use std::sync::Wait;

/// A look that says nothing of what its caller has seen.
fn look_at(read: Read) -> Call
    ensures { result ≡ clerks.look_at read }
{
    Call::Look(Look { after: None, read })
}

/// The call that a request asks.
fn call_in(alloc: Global, request: &Request) -> Result<Call, CallRefused>
    requires { IsRouteInForm request.now.route }
    ensures call { Gives result (asked_by request.now) }
    ensures form { IfOk result IsCallInForm }
{
    match request.route {
        Route::Calls => read_call(alloc, request.body.as_slice()),
        Route::Line { line, year } => Ok(look_at(Read::Line { line, year })),
        Route::Report { year, kind } => Ok(look_at(Read::Report { year, kind })),
    }
}

/// The code of a reply (RFC 9110): 409 Conflict where the change is refused, and 200 OK else.
fn body_code(body: &Body) -> u16
    ensures { result ≡ code_by body.now }
{
    match body {
        Body::Refused(_) => 409,
        Body::Done { .. } => 200,
        Body::Shown(_) => 200,
    }
}

/// The code of what was given for a call: 500 for a fault of the disk, and 503 for want of memory.
/// The program never asks for the 503: `write_given` leaves want of memory to the door.
fn posted_code(given: &Posted) -> u16
    ensures { result ≡ code_of given.now }
{
    match given {
        Posted::Reply(reply) => body_code(&reply.body),
        Posted::Disk => 500,
        Posted::NoMemory => 503,
    }
}

/// Appends what was given for a call, and gives its code. Want of memory is left to the door. What
/// is brief needs no more room than there is, so no accepted call's reply is lost.
fn write_given(alloc: Global, given: &Posted, out: &mut Vec<u8>) -> Result<u16, AllocError>
    requires { vec_len out.old + 1024 ≤ vec_capacity out.old }
    ensures code { IfOk result (λ code. code ≡ code_of given.now) }
    ensures written { IfOk result (λ code. IsWritten given.now) }
    ensures text { IfOk result (λ code. out.new.items ≡ out.old.items ++ text given.now) }
    ensures memory { OnErr result ((given.now ≡ posted.NoMemory) ⊎ (IsBrief given.now → ⊥)) }
{
    match given {
        Posted::NoMemory => Err(AllocError),
        _ => {
            write_posted(alloc, given, out)?;
            Ok(posted_code(given))
        }
    }
}

/// Appends what is wrong with a request that asks no call, and gives the code 400.
fn write_fault(alloc: Global, fault: &FormFault, out: &mut Vec<u8>) -> Result<u16, AllocError>
    ensures code { IfOk result (λ code. code ≡ 400) }
    ensures text { OnOk result (out.new.items ≡ out.old.items ++ form_text fault.now) }
{
    write_form(alloc, fault, out)?;
    Ok(400)
}

/// A clerk with a pass of a hall. Contracts see the pass.
#[derive(Drop)]
pub struct Clerk<'a, N: City, D: Disk + Drop, H: Wait> {
    pub rt: &'a H,
    pub alloc: Global,
    pub shared: &'a Shared<N, D>,
    pub pass: HallPass<N>,
}

impl<'a, N: City, D: Disk + Drop, H: Wait> Model for Clerk<'a, N, D, H> {
    ghost use Rattle.cf_turns.specs.States.{PassState};

    ghost Value = { PassState };

    ghost view = { λ c. c.pass };
}

impl<'a, N: City, D: Disk + Drop, H: Wait> Clerk<'a, N, D, H> {
    /// Posts a call, and writes the reply.
    fn answer_call(&mut self, call: Call, out: &mut Vec<u8>) -> Result<u16, AllocError>
        requires form { IsCallInForm call }
        requires room { vec_len out.old + 1024 ≤ vec_capacity out.old }
        ensures ok { IfOk result
            (λ code. AnswersCall N.plan self.old self.new call code out.old.items out.new.items) }
        ensures memory { OnErr result (Hears N.plan self.old call posted.NoMemory self.new) }
    {
        let given = self
            .shared
            .post(self.rt, self.alloc, &mut self.pass, &NoGate, call);
        write_given(self.alloc, &given, out)
    }
}

impl<'a, N: City, D: Disk + Drop, H: Wait> Answer for Clerk<'a, N, D, H> {
    ghost use Rattle.cf_serve_laws.specs.Clerks.{Passes};

    ghost answers = { Passes N.plan };

    /// The room of the reply is taken before the call is posted.
    fn answer(&mut self, request: &Request, out: &mut Vec<u8>) -> Result<u16, AllocError> {
        out.reserve(1024)?;
        match call_in(self.alloc, request) {
            Ok(call) => self.answer_call(call, out),
            Err(CallRefused::Form(fault)) => write_fault(self.alloc, &fault, out),
            Err(CallRefused::NoMemory) => Err(AllocError),
        }
    }
}
