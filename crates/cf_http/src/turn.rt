//! One request is answered.

ghost use Rattle.std.specs.Prelude.{◌≡◌, ◌≢◌, ◌+◌, ◌≤◌, Ok, Err, Some, None, length, take, drop, IfOk, IfSome};
ghost use Rattle.cf_http_heads.specs.Answers.{miss_answer, refusal_answer};
ghost use Rattle.cf_http_heads.specs.Heads.{BeginsWithHead};
ghost use Rattle.cf_http_heads.specs.Routes.{IsRouteInForm};
ghost use Rattle.cf_http.specs.Links.{FaultsIf, FaultsOf, OnlySends};
ghost use Rattle.cf_http.specs.Serving.{IsAfterAnswer};
ghost use Rattle.cf_http.specs.Stages.{EndsOver, GoesOn, OnlyAnswers, ReadsOver, Replied, Stops};
ghost use Rattle.cf_http.specs.Talk.{IsOpenText, LastAnswer};
ghost use Rattle.cf_http.specs.Turns.{Said, Told as SaysTold, IsFinished};

use crate::answer::Answer;
use crate::bytes::Bytes;
use crate::end::LinkEnd;
use crate::link::Link;
use crate::reading::Next;
use crate::request::Request;
use crate::sending::{Told, send_answer, send_no_memory, send_refusal};
use crate::server::Server;
use cf_base::Failed;
use cf_http_heads::{Heading, Miss, Refusal, Route};
use std::alloc::{AllocError, Global};

/// How a link goes on after an answer.
fn finish(sent: Result<(), Failed>, closes: bool) -> Option<LinkEnd>
    ensures { IsFinished sent closes result }
{
    match sent {
        Err(_) => Some(LinkEnd::WriteFault),
        Ok(()) if closes => Some(LinkEnd::Closed),
        Ok(()) => None,
    }
}

impl<L: Link> Server<L> {
    /// The end of the link after a head, or a text that is none, is refused.
    fn refuse<A: Answer>(&mut self, answer: &A, is_head: bool, why: Refusal) -> LinkEnd
        requires { LastAnswer A.answers answer.now self.old.text
            LinkEnd.Closed (refusal_answer is_head why) answer.now }
        ensures over { EndsOver A.answers answer.now answer.now self.old self.new result }
        ensures faults { FaultsOf self.old.link self.new.link result }
        ensures stays { OnlyAnswers self.old self.new }
        ensures kind { IsAfterAnswer result }
    {
        send_refusal(&mut self.link, &mut self.workspace.lines, is_head, why)
    }

    /// Answers a request that goes nowhere.
    fn reply_missed(&mut self, heading: &Heading, miss: Miss) -> Option<LinkEnd>
        ensures said { Said self.old.link self.new.link
            (miss_answer heading.now.is_head heading.now.closes miss) heading.now.closes result }
        ensures faults { FaultsIf self.old.link self.new.link result }
        ensures stays { OnlyAnswers self.old self.new }
    {
        let told = Told {
            code: miss.code(),
            allow: miss.allow(),
            closes: heading.closes,
            is_head: heading.is_head,
        };
        let sent = send_answer(&mut self.link, &mut self.workspace.lines, told, miss.body());
        finish(sent, heading.closes)
    }

    /// The body of the request that stands at the front.
    fn body_at(&self, alloc: Global, from: usize, len: usize) -> Result<Bytes, AllocError>
        requires { from + len ≤ length self.now.text }
        ensures { IfOk result (λ body. body ≡ take len (drop from self.now.text)) }
    {
        let (_, rest) = self.workspace.bytes.as_slice().split_at(from);
        let (body, _) = rest.split_at(len);
        Ok(Bytes::new(Vec::from_slice(alloc, body)?))
    }

    /// Has a request answered.
    fn reply_told<A: Answer>(
        &mut self,
        alloc: Global,
        answer: &mut A,
        heading: &Heading,
        route: Route,
        stated: usize,
    ) -> Option<LinkEnd>
        requires whole { heading.now.length + stated ≤ length self.old.text }
        requires route { IsRouteInForm route }
        ensures said { SaysTold A.answers answer.old self.old.link self.new.link route
            (take stated (drop heading.now.length self.old.text)) heading.now.closes
            answer.new result }
        ensures faults { FaultsIf self.old.link self.new.link result }
        ensures stays { OnlyAnswers self.old self.new }
    {
        let Ok(body) = self.body_at(alloc, heading.length, stated) else {
            return Some(send_no_memory(&mut self.link));
        };
        let request = Request { route, body };
        self.workspace.body.clear();
        let Ok(code) = answer.answer(&request, &mut self.workspace.body) else {
            return Some(send_no_memory(&mut self.link));
        };
        let told = Told {
            code,
            allow: None,
            closes: heading.closes,
            is_head: false,
        };
        let lines = &mut self.workspace.lines;
        let sent = send_answer(&mut self.link, lines, told, self.workspace.body.as_slice());
        finish(sent, heading.closes)
    }

    /// Lets an answered request go, where the link stays open.
    fn pass_after(&mut self, how: Option<LinkEnd>, count: usize)
        requires { count ≤ length self.old.text }
        ensures text { how ≡ None → self.new.text ≡ drop count self.old.text }
        ensures link { self.new.link ≡ self.old.link }
    {
        if how.is_none() {
            self.pass(count);
        }
    }

    /// Answers the request that stands whole at the front.
    fn reply<A: Answer>(
        &mut self,
        alloc: Global,
        answer: &mut A,
        heading: &Heading,
        stated: usize,
    ) -> Option<LinkEnd>
        requires begins { BeginsWithHead self.old.text heading.now }
        requires states { heading.now.body ≡ Ok stated }
        requires whole { heading.now.length + stated ≤ length self.old.text }
        ensures open { result ≡ None → Replied A.answers answer.old answer.new self.old self.new }
        ensures over { IfSome result (EndsOver A.answers answer.old answer.new self.old self.new) }
        ensures faults { FaultsIf self.old.link self.new.link result }
        ensures stays { OnlySends self.old.link self.new.link }
        ensures kind { IfSome result IsAfterAnswer }
    {
        let count = heading.length + stated;
        match heading.ask {
            Err(miss) => {
                let how = self.reply_missed(heading, miss);
                self.pass_after(how, count);
                how
            }
            Ok(route) => {
                let how = self.reply_told(alloc, answer, heading, route, stated);
                self.pass_after(how, count);
                how
            }
        }
    }

    /// Reads the next request and answers it.
    pub fn serve_next<A: Answer>(&mut self, alloc: Global, answer: &mut A) -> Option<LinkEnd>
        ensures open { result ≡ None → GoesOn A.answers answer.old answer.new self.old self.new 1 }
        ensures over { IfSome result (Stops A.answers answer.old answer.new self.old self.new) }
        ensures reads { ReadsOver IsOpenText self.old self.new }
        ensures faults { FaultsIf self.old.link self.new.link result }
        ensures limit { result ≢ Some LinkEnd.Limit }
    {
        let heading = match self.next_head() {
            Next::Head(heading) => heading,
            Next::NoHead => return Some(self.refuse(answer, false, Refusal::Head)),
            Next::Stop(how) => return Some(how),
        };
        let stated = match heading.body {
            Ok(stated) => stated as usize,
            Err(why) => return Some(self.refuse(answer, heading.is_head, why)),
        };
        if let Some(how) = self.next_body(heading.length + stated) {
            return Some(how);
        }
        self.reply(alloc, answer, &heading, stated)
    }
}
