//! The entries of a journal as calls.

ghost use Rattle.std.specs.Prelude.{◌≡◌, [], ◌++◌, OnOk};
ghost use Rattle.std.specs.List.{All};
ghost use Rattle.cf_calls.specs.Common.{IsChangeInForm};
ghost use Rattle.cf_chart.specs.Common.{Plan};
ghost use Rattle.cf_journal.specs.Records.{HasRecord};
ghost use Rattle.cf_model.specs.Common.{IsLegal};
ghost use Rattle.cf_books.specs.Again.{after_calls, calls_of};
ghost use Rattle.cf_books.specs.Calls.{ReadsBack, call_line, calls_text};

use cf_calls::Entry;
use cf_json_calls::write_call;
use std::alloc::AllocError;

/// Appends the line of an entry's call.
pub fn put_call(out: &mut Vec<u8>, entry: &Entry) -> Result<(), AllocError>
    requires { IsChangeInForm entry.now.change }
    ensures text { OnOk result (out.new.items ≡ out.old.items ++ call_line entry.now) }
    ensures back { OnOk result (ReadsBack entry.now) }
{
    write_call(&entry.change, out)?;
    out.push(b'\n')?;
    Ok(())
}

/// Appends the calls of a journal's entries, a line each, in order. What a desk reads of each line
/// is the entry's change. Where the history of the entries is legal, a desk that takes the calls
/// from the empty history on under the same chart has that history again.
pub fn put_calls(out: &mut Vec<u8>, entries: &[Entry]) -> Result<(), AllocError>
    requires { All HasRecord entries.now }
    ensures text { OnOk result (out.new.items ≡ out.old.items ++ calls_text entries.now) }
    ensures back { OnOk result (All ReadsBack entries.now) }
    ensures again { (plan : Plan) → IsLegal plan entries.now
        → after_calls plan [] (calls_of entries.now) ≡ entries.now }
{
    for entry in entries {
        put_call(out, entry)?;
    }
    Ok(())
}
