//! A link that is served, with what came on it and was not used yet.

ghost use Rattle.std.specs.Prelude.{◌≡◌, ◌+◌, ◌<◌, ◌≤◌, [], true, false, Ok, drop, length, vec_len, vec_capacity, IfOk, OnErr};
ghost use Rattle.cf_http_heads.specs.Heads.{IsFront};
ghost use Rattle.cf_http_heads.specs.declared.lines.TheConstants.{LINES_ROOM};
ghost use Rattle.cf_http.specs.declared.server.TheConstants.{CHUNK, ROOM};
ghost use Rattle.cf_http.specs.Links.{Counts, OnlyReads};
ghost use Rattle.cf_http.specs.Stages.{Came, ReadsNow};

use crate::link::Link;
use cf_base::Failed;
use cf_http_heads::{Front, LINES_ROOM, Routes, read_head};
use std::alloc::{AllocError, Global};
use std::marker::Model;

/// The bytes of a read.
const CHUNK: usize = 16_384;

/// The room for a head, a body and one read.
const ROOM: usize = 294_912;

/// The memory that serving needs, but for what an answerer takes. It is taken once, before the
/// first request.
#[derive(Drop)]
pub struct Workspace {
    pub routes: Routes,
    pub bytes: Vec<u8>,
    pub chunk: Vec<u8>,
    pub lines: Vec<u8>,
    pub body: Vec<u8>,
    ghost room: { ROOM ≤ vec_capacity bytes },
    ghost chunk_len: { vec_len chunk ≡ CHUNK },
    ghost lines_room: { LINES_ROOM ≤ vec_capacity lines },
}

impl Workspace {
    pub fn new(alloc: Global) -> Result<Workspace, AllocError>
        ensures { IfOk result (λ workspace. workspace.bytes.items ≡ []) }
    {
        let routes = Routes::new(alloc)?;
        let mut bytes = Vec::new(alloc);
        bytes.reserve(ROOM)?;
        let chunk = vec![in alloc; 0u8; CHUNK]?;
        let mut lines = Vec::new(alloc);
        lines.reserve(LINES_ROOM)?;
        Ok(Workspace {
            routes,
            bytes,
            chunk,
            lines,
            body: Vec::new(alloc),
        })
    }
}

/// A link that is served. Contracts see what it tells, and the bytes that came and were not used
/// yet.
pub struct Server<L: Link> {
    pub link: L,
    pub workspace: Workspace,
}

impl<L: Link> Model for Server<L> {
    ghost use Rattle.cf_http.specs.Stages.{Stage};

    ghost Value = { Stage };

    ghost view = { λ s. record { link = L.tells s.link; text = s.workspace.bytes.items } };
}

impl<L: Link> Server<L> {
    /// A link that is served from now on.
    pub fn new(link: L, workspace: Workspace) -> Self
        ensures { result ≡ record { link = L.tells link; text = workspace.bytes.items } }
    {
        Server { link, workspace }
    }

    /// The link.
    pub fn into_link(self) -> L
        ensures { L.tells result ≡ self.link }
    {
        let Server { link, workspace: _ } = self;
        link
    }

    /// How many bytes came and were not used yet.
    pub fn waiting(&self) -> usize
        ensures { result ≡ length self.now.text }
    {
        self.workspace.bytes.len()
    }

    /// What stands at the front of what came.
    pub fn front(&self) -> Front
        ensures { IsFront self.now.text result }
    {
        read_head(&self.workspace.routes, self.workspace.bytes.as_slice())
    }

    /// Reads once. Whether bytes came: if not, the input is at its end.
    pub fn fill(&mut self) -> Result<bool, Failed>
        requires { length self.old.text + CHUNK ≤ ROOM }
        ensures came { Came self.old self.new }
        ensures reads { ReadsNow self.old self.new }
        ensures more { result ≡ Ok true → length self.old.text < length self.new.text }
        ensures limit { length self.new.text ≤ length self.old.text + CHUNK }
        ensures end { result ≡ Ok false
            → (self.new.text ≡ self.old.text) × (self.new.link.input.ended ≡ true) }
        ensures err { OnErr result (self.new.text ≡ self.old.text) }
        ensures faults { Counts self.old.link.input.faults self.new.link.input.faults result }
        ensures stays { OnlyReads self.old.link self.new.link }
    {
        let workspace = &mut self.workspace;
        let count = self.link.read(workspace.chunk.as_mut_slice())?;
        let (piece, _) = workspace.chunk.as_slice().split_at(count);
        let _ = workspace.bytes.extend_from_slice(piece);
        Ok(count > 0)
    }

    /// Lets the first bytes go.
    pub fn pass(&mut self, count: usize)
        requires { count ≤ length self.old.text }
        ensures text { self.new.text ≡ drop count self.old.text }
        ensures link { self.new.link ≡ self.old.link }
    {
        let len = self.workspace.bytes.len();
        self.workspace.bytes.copy_within(count..len, 0);
        self.workspace.bytes.truncate(len - count);
    }
}
