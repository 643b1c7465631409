//! What a script has set up, and one run over it.

use crate::clerk::{Clerk, FixedAnswer, Verdict};
use crate::cut::CutLink;
use cf_http::{DoorEnd, LinkEnd, serve_door, serve_link};
use cf_http_links::{Coming, MemDoor, MemLink, Passed};
use std::alloc::{AllocError, Global};
use std::mem;

/// What the next link gives and takes, and the links that wait at the door.
#[derive(Drop)]
pub struct Stage {
    pub alloc: Global,
    pub verdict: Verdict,
    pub text: Vec<u8>,
    /// The read that fails, from 0.
    pub fail_at: u64,
    /// How many bytes the link takes.
    pub limit: usize,
    pub links: Vec<Coming>,
}

/// What a link was answered, how it ended, and how often the answerer was asked.
#[derive(Drop)]
pub struct Played {
    pub sent: Vec<u8>,
    pub how: LinkEnd,
    pub asked: u64,
}

/// What a door left.
#[derive(Drop)]
pub struct Kept {
    pub door: MemDoor,
    pub end: DoorEnd,
    pub asked: u64,
}

impl Stage {
    pub fn new(alloc: Global) -> Self {
        Stage {
            alloc,
            verdict: Verdict::Accepted,
            text: Vec::new(alloc),
            fail_at: u64::MAX,
            limit: usize::MAX,
            links: Vec::new(alloc),
        }
    }

    pub fn clerk(&self) -> Clerk {
        Clerk {
            alloc: self.alloc,
            verdict: self.verdict,
            asked: 0,
        }
    }

    /// A link that gives the text in pieces of at most so many bytes.
    fn link(&self, piece: usize) -> Result<MemLink, AllocError> {
        let bytes = Vec::from_slice(self.alloc, self.text.as_slice())?;
        Ok(MemLink::failing(self.alloc, bytes, piece, self.fail_at, self.limit))
    }

    /// Serves a link that gives the text in pieces of at most so many bytes.
    pub fn serve(&self, piece: usize) -> Result<Played, AllocError> {
        let mut clerk = self.clerk();
        let (link, how) = serve_link(self.alloc, self.link(piece)?, &mut clerk);
        let sent = Vec::from_slice(self.alloc, link.sent())?;
        let asked = clerk.asked;
        Ok(Played { sent, how, asked })
    }

    /// Serves a link whose first read gives at most so many bytes of the text, and the next one all
    /// the rest.
    pub fn serve_cut(&self, first: usize) -> Result<Played, AllocError> {
        let link = self.link(usize::MAX)?;
        let link = CutLink { link, most: first };
        let mut clerk = self.clerk();
        let (link, how) = serve_link(self.alloc, link, &mut clerk);
        let sent = Vec::from_slice(self.alloc, link.link.sent())?;
        let asked = clerk.asked;
        Ok(Played { sent, how, asked })
    }

    /// Serves a link that gives the text in pieces of at most so many bytes: what had passed before
    /// each of its reads.
    pub fn serve_noted(&self, piece: usize) -> Result<Vec<Passed>, AllocError> {
        let (link, _) = serve_link(self.alloc, self.link(piece)?, &mut self.clerk());
        Vec::from_slice(self.alloc, link.reads())
    }

    /// Serves the text whole, each request by one answer: how the link ended, and how many bytes it
    /// took.
    pub fn serve_fixed(&self) -> Result<(LinkEnd, usize), AllocError> {
        let bytes = Vec::from_slice(self.alloc, self.text.as_slice())?;
        let link = MemLink::new(self.alloc, bytes, usize::MAX);
        let (link, how) = serve_link(self.alloc, link, &mut FixedAnswer);
        Ok((how, link.sent().len()))
    }

    /// Lets the text be the next link of the door.
    pub fn add_link(&mut self, piece: usize) -> Result<(), AllocError> {
        let bytes = mem::replace(&mut self.text, Vec::new(self.alloc));
        self.links.push(Coming {
            bytes,
            piece,
            fail_at: self.fail_at,
            limit: self.limit,
        })?;
        Ok(())
    }

    /// Serves so many links of the door, whose call of `next` of this number fails.
    pub fn keep_door(&mut self, links: u32, fail_at: u64) -> Result<Kept, AllocError> {
        let coming = mem::replace(&mut self.links, Vec::new(self.alloc));
        let mut door = MemDoor::new(self.alloc, coming, fail_at)?;
        let mut clerk = self.clerk();
        let end = serve_door(self.alloc, &mut door, links, &mut clerk);
        let asked = clerk.asked;
        Ok(Kept { door, end, asked })
    }

    /// Forgets the link.
    pub fn clear(&mut self) {
        self.text.clear();
        self.fail_at = u64::MAX;
        self.limit = usize::MAX;
    }
}
