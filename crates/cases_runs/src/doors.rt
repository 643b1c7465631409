//! Doors in memory: what comes at those of the next run, and what was said there.

use cf_http::Link;
use cf_http_links::{Coming, MemDoor, MemLink};
use std::alloc::{AllocError, Global};
use std::{io, mem};

/// A request with a call.
fn post_text(alloc: Global, call: &str) -> Result<String, AllocError> {
    format!(in alloc;
        "POST /calls HTTP/1.1\r\nHost: a\r\nContent-Length: {}\r\n\r\n{call}",
        call.len()
    )
}

/// What comes at a door of the next run.
#[derive(Drop)]
pub struct Visits {
    links: Vec<Coming>,
    /// The call for a link that fails, or 0.
    fail_at: u64,
}

/// The doors of the next run, as the script tells them.
#[derive(Drop)]
pub struct Doors {
    alloc: Global,
    doors: Vec<Visits>,
}

impl Doors {
    pub fn new(alloc: Global) -> Doors {
        Doors {
            alloc,
            doors: Vec::new(alloc),
        }
    }

    /// A door more, whose call of this number fails.
    pub fn add_door(&mut self, fail_at: u64) -> Result<(), AllocError> {
        self.doors.push(Visits {
            links: Vec::new(self.alloc),
            fail_at,
        })?;
        Ok(())
    }

    /// A link more at the last door. It takes so many bytes.
    pub fn add_link(&mut self, limit: usize) -> Result<(), AllocError> {
        if let Some(door) = self.doors.last_mut() {
            door.links.push(Coming {
                bytes: Vec::new(self.alloc),
                piece: usize::MAX,
                fail_at: u64::MAX,
                limit,
            })?;
        }
        Ok(())
    }

    /// Bytes more on the last link of the last door.
    pub fn add_bytes(&mut self, bytes: &[u8]) -> Result<(), AllocError> {
        if let Some(door) = self.doors.last_mut() {
            if let Some(link) = door.links.last_mut() {
                link.bytes.extend_from_slice(bytes)?;
            }
        }
        Ok(())
    }

    /// A request without a body.
    pub fn add_get(&mut self, target: &str) -> Result<(), AllocError> {
        let head = format!(in self.alloc; "GET {target} HTTP/1.1\r\nHost: a\r\n\r\n")?;
        self.add_bytes(head.as_bytes())
    }

    /// A request with a call.
    pub fn add_post(&mut self, call: &str) -> Result<(), AllocError> {
        let text = post_text(self.alloc, call)?;
        self.add_bytes(text.as_bytes())
    }

    /// The doors, which are told no more.
    pub fn take(&mut self) -> Result<Vec<MemDoor>, AllocError> {
        let told = mem::replace(&mut self.doors, Vec::new(self.alloc));
        let mut doors = Vec::new(self.alloc);
        for Visits { links, fail_at } in told {
            doors.push(MemDoor::new(self.alloc, links, fail_at)?)?;
        }
        Ok(doors)
    }
}

/// Prints an answer: its lines, without the carriage returns and the empty one, and its body.
fn show_answer(rt: &impl Print, answer: &str) -> io::Result<()> {
    for line in answer.lines() {
        if !line.is_empty() {
            println!(rt; "    {line}")?;
        }
    }
    Ok(())
}

/// Prints the answers that were sent on a link.
fn show_answers(rt: &impl Print, sent: &[u8]) -> io::Result<()> {
    let said = str::from_utf8(sent).unwrap_or("no text");
    for answer in said.split("HTTP/1.1 ").skip(1) {
        show_answer(rt, answer)?;
    }
    Ok(())
}

/// Prints what was said on a link.
fn show_link(rt: &impl Print, link: &MemLink) -> io::Result<()> {
    println!(rt; "  link, {} bytes came", link.received())?;
    show_answers(rt, link.sent())
}

/// Prints what was said on the links that each door finished.
pub fn show_doors(rt: &impl Print, doors: &[MemDoor]) -> io::Result<()> {
    for door in doors {
        println!(rt; "door, {} links", door.finished().len())?;
        for link in door.finished() {
            show_link(rt, link)?;
        }
    }
    Ok(())
}
