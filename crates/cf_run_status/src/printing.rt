//! Prints the text of a command.

ghost use Rattle.std.specs.Prelude.{◌≡◌, ◌≢◌, ℕ, List, IfOk, OnErr};
ghost use Rattle.cf_base.specs.Common.{Rose};
ghost use Rattle.cf_run_status.specs.Printing.{Prints};

use crate::status::Status;
use cf_base::Sink;
use cf_base_lines::write_all;
use std::alloc::AllocError;

/// Writes a text, where there was memory to make it.
pub fn print<O: Sink>(text: Result<Vec<u8>, AllocError>, out: &mut O) -> Status
    ensures prints { (bytes : List ℕ) → IfOk text (λ t. t.items ≡ bytes)
        → Prints bytes (O.held out.old) (O.held out.new) result }
    ensures none { OnErr text (result ≡ Status.NoMemory) }
    ensures write { result ≡ Status.WriteFault → Rose (O.faults out.old) (O.faults out.new) }
    ensures memory { result ≡ Status.NoMemory → O.faults out.new ≡ O.faults out.old }
    ensures out_quiet { result ≢ Status.WriteFault → O.faults out.new ≡ O.faults out.old }
{
    match text {
        Ok(text) => match write_all(out, text.as_slice()) {
            Ok(()) => Status::Ok,
            Err(_) => Status::WriteFault,
        },
        Err(_) => Status::NoMemory,
    }
}
