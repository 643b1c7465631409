//! The next request is read from a link.

ghost use Rattle.std.specs.Prelude.{◌≡◌, ◌≢◌, ◌+◌, ◌<◌, ◌≤◌, Bool, true, None, IfSome, length};
ghost use Rattle.cf_http_heads.specs.Heads.{IsOpenHead};
ghost use Rattle.cf_http_heads.specs.declared.fields.TheConstants.{LONGEST_BODY};
ghost use Rattle.cf_http_heads.specs.declared.head.TheConstants.{LONGEST_HEAD};
ghost use Rattle.cf_http.specs.Links.{FaultsIf, OnlyReads};
ghost use Rattle.cf_http.specs.Serving.{IsBodyStop, NoneCame};
ghost use Rattle.cf_http.specs.Stages.{Came, ReadsOver};
ghost use Rattle.cf_http.specs.Steps.{FaultsNext, IsNext};

use crate::end::LinkEnd;
use crate::link::Link;
use crate::server::Server;
use cf_http_heads::{Front, Heading};

/// What came next.
#[derive(Clone, Copy)]
pub enum Next {
    Head(Heading),
    /// A text that is no head, whatever follows.
    NoHead,
    Stop(LinkEnd),
}

impl<L: Link> Server<L> {
    /// How the link stops at the end of its input, before a head.
    fn stop(&self) -> LinkEnd
        ensures how { (ended : Bool) → ended ≡ true → IsOpenHead self.now.text
            → NoneCame self.now.text ended result }
        ensures fault { result ≢ LinkEnd.ReadFault }
    {
        if self.waiting() == 0 {
            LinkEnd::Closed
        } else {
            LinkEnd::Cut
        }
    }

    /// Reads until a head is there.
    pub fn next_head(&mut self) -> Next
        ensures came { Came self.old self.new }
        ensures reads { ReadsOver IsOpenHead self.old self.new }
        ensures next { IsNext self.new.text self.new.link.input.ended result }
        ensures faults { FaultsNext self.old.link self.new.link result }
        ensures stays { OnlyReads self.old.link self.new.link }
    {
        loop {
            match self.front() {
                Front::Head(heading) => return Next::Head(heading),
                Front::NoHead => return Next::NoHead,
                Front::Open => {}
            }
            match self.fill() {
                Ok(true) => {}
                Ok(false) => return Next::Stop(self.stop()),
                Err(_) => return Next::Stop(LinkEnd::ReadFault),
            }
        }
    }

    /// Reads until so many bytes are there.
    pub fn next_body(&mut self, need: usize) -> Option<LinkEnd>
        requires { need ≤ LONGEST_HEAD + LONGEST_BODY }
        ensures came { Came self.old self.new }
        ensures reads { ReadsOver (λ text. length text < need) self.old self.new }
        ensures whole { result ≡ None → need ≤ length self.new.text }
        ensures none { IfSome result (IsBodyStop need self.new.text self.new.link.input.ended) }
        ensures faults { FaultsIf self.old.link self.new.link result }
        ensures stays { OnlyReads self.old.link self.new.link }
    {
        while self.waiting() < need {
            match self.fill() {
                Ok(true) => {}
                Ok(false) => return Some(LinkEnd::Cut),
                Err(_) => return Some(LinkEnd::ReadFault),
            }
        }
        None
    }
}
