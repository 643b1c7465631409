//! What the program says on standard error of how a run ended.

ghost use Rattle.std.specs.Prelude.{◌≡◌, decimal, codes, ◌++◌, OnOk};
ghost use Rattle.std.specs.Io.KnownBytes.{Appends};
ghost use Rattle.cf_run_status.specs.Notices as spec;
ghost use Rattle.cf_run_status.specs.Notices.{line_of, notice_of, place_of};

use crate::status::Status;
use cf_base::{Failed, Sink};
use cf_base_lines::write_all;
use itoa::Buffer;

/// Writes the place of what is wrong, as ` at 12`.
fn tell_place<E: Sink>(err: &mut E, place: u64) -> Result<(), Failed>
    ensures { OnOk result
        (Appends (E.held err.old) (E.held err.new) (codes " at " ++ decimal place)) }
{
    write_all(err, b" at ")?;
    let mut buffer = Buffer::new();
    write_all(err, buffer.format(place).as_bytes())
}

/// Writes the place that a status names in its notice, if it does.
fn tell_place_of<E: Sink>(err: &mut E, status: Status) -> Result<(), Failed>
    ensures { OnOk result (Appends (E.held err.old) (E.held err.new) (place_of status)) }
{
    match status {
        Status::Damaged { offset, .. } => tell_place(err, offset),
        _ => Ok(()),
    }
}

/// Whether all went well.
fn is_fine(status: Status) -> bool
    ensures { result ≡ spec.is_fine status }
{
    matches!(status, Status::Ok)
}

/// Writes the line that says how a run ended.
fn tell_line<E: Sink>(err: &mut E, status: Status) -> Result<(), Failed>
    ensures { OnOk result (Appends (E.held err.old) (E.held err.new) (line_of status)) }
{
    write_all(err, b"cityfund: ")?;
    write_all(err, status.text().as_bytes())?;
    tell_place_of(err, status)?;
    write_all(err, b"\n")
}

/// Says how a run ended, in a line after the program's name. Where all went well nothing is said.
/// It takes no memory.
pub fn tell<E: Sink>(err: &mut E, status: Status) -> Result<(), Failed>
    ensures { OnOk result (Appends (E.held err.old) (E.held err.new) (notice_of status)) }
{
    if is_fine(status) {
        return Ok(());
    }
    tell_line(err, status)
}
