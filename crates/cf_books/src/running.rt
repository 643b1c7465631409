//! A run: the files' bytes, the answer, and what is said on standard error.

ghost use Rattle.std.specs.Prelude.{◌≡◌, ◌≢◌, ◌⊎◌, false, Err, IfOk, OnOk};
ghost use Rattle.std.specs.Io.KnownBytes.{Appends};
ghost use Rattle.cf_base.specs.Common.{Rose};
ghost use Rattle.cf_books.specs.Answers as spec;
ghost use Rattle.cf_books.specs.Answers.{Ends, IsBeside};
ghost use Rattle.cf_books.specs.Notices.{notice_of};
ghost use Rattle.cf_books_words.specs.Words.{asks};

use crate::answers::answer_of;
use crate::notices::put_notice;
use crate::status::Status;
use cf_base::{Failed, Sink, Source};
use cf_base_lines::{Unread, read_all, write_all};
use cf_books_words::{Command, Request};
use std::alloc::Global;

/// Whether a command reads a journal beside its file.
fn reads_journal(command: Command) -> bool
    ensures { result ≡ spec.reads_journal command }
{
    matches!(command, Command::CheckGrants | Command::Claims { .. })
}

/// The bytes of the journal beside a command's file, where it reads one. The other commands leave
/// it unread.
fn read_beside<J: Source>(
    alloc: Global,
    command: Command,
    journal: &mut J,
) -> Result<Vec<u8>, Unread>
    ensures ok { IfOk result (λ v. IsBeside (spec.reads_journal command) (J.left journal.old)
        v.items) }
    ensures fault { result ≡ Err Unread.Fault → Rose (J.faults journal.old) (J.faults journal.new) }
    ensures memory { result ≡ Err Unread.NoMemory → J.faults journal.new ≡ J.faults journal.old }
    ensures quiet { OnOk result (J.faults journal.new ≡ J.faults journal.old) }
    ensures unread { spec.reads_journal command ≡ false → journal.new ≡ journal.old }
{
    if !reads_journal(command) {
        return Ok(Vec::new(alloc));
    }
    read_all(alloc, journal, usize::MAX)
}

/// Runs a request over the bytes of its file, and of the journal beside it for the two commands on
/// grants. Both are only read: nothing else of them can be asked of a source. What is read of a
/// journal that a desk writes to meanwhile isn't said to be a state that it had
/// (`docs/JOURNAL.md`).
pub fn run<S: Source, J: Source, K: Sink>(
    alloc: Global,
    request: Request,
    source: &mut S,
    journal: &mut J,
    out: &mut K,
) -> Status
    ensures ends { Ends (asks request.entry) (S.left source.old) (J.left journal.old)
        (K.held out.old) (K.held out.new) result }
    ensures read { result ≡ Status.ReadFault → Rose (S.faults source.old) (S.faults source.new)
        ⊎ Rose (J.faults journal.old) (J.faults journal.new) }
    ensures write { result ≡ Status.WriteFault → Rose (K.faults out.old) (K.faults out.new) }
    ensures input_quiet { result ≢ Status.ReadFault → (S.faults source.new ≡ S.faults source.old)
        × (J.faults journal.new ≡ J.faults journal.old) }
    ensures out_quiet { result ≢ Status.WriteFault → K.faults out.new ≡ K.faults out.old }
    ensures unread { spec.reads_journal request.entry.command ≡ false → journal.new ≡ journal.old }
{
    let bytes = match read_all(alloc, source, usize::MAX) {
        Ok(bytes) => bytes,
        Err(Unread::Fault) => return Status::ReadFault,
        Err(Unread::NoMemory) => return Status::NoMemory,
    };
    let beside = match read_beside(alloc, request.command, journal) {
        Ok(bytes) => bytes,
        Err(Unread::Fault) => return Status::ReadFault,
        Err(Unread::NoMemory) => return Status::NoMemory,
    };
    let Ok(answer) = answer_of(alloc, request, bytes.as_slice(), beside.as_slice()) else {
        return Status::NoMemory;
    };
    match write_all(out, answer.out.as_slice()) {
        Ok(()) => answer.status,
        Err(_) => Status::WriteFault,
    }
}

/// Says how a run ended, in a line after the program's name. Where all went well nothing is said.
/// `Failed` where a write fails, or there is no memory for the line.
pub fn tell<E: Sink>(alloc: Global, err: &mut E, status: Status) -> Result<(), Failed>
    ensures { OnOk result (Appends (E.held err.old) (E.held err.new) (notice_of status)) }
{
    let mut notice = Vec::new(alloc);
    match put_notice(&mut notice, status) {
        Ok(()) => write_all(err, notice.as_slice()),
        Err(_) => Err(Failed),
    }
}
