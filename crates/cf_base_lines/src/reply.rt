ghost use Rattle.std.specs.Prelude.{◌≡◌, ◌+◌, ◌≤◌, ◌++◌, ℕ, false, List, vec_len, vec_capacity};
ghost use Rattle.cf_base_lines.specs.Talk.{long_text};
ghost use Rattle.cf_base_lines.specs.State.{IsLine, Puts, Replies};

use crate::line::Line;
use crate::office::Office;

// Answers a line that is too long.
fn put_long(out: &mut Vec<u8>)
    requires { vec_len out.old + 1024 ≤ vec_capacity out.old }
    ensures text { out.new.items ≡ out.old.items ++ long_text }
    ensures newline { vec_len out.new + 1 ≤ vec_capacity out.new }
    ensures capacity { vec_capacity out.old ≤ vec_capacity out.new }
{
    let _ = out.extend_from_slice(b"{\"form\":\"long\"}");
}

// Answers a line, without the newline.
fn put_line<O: Office>(office: &mut O, line: &Line, out: &mut Vec<u8>) -> bool
    requires { vec_len out.old + 1024 ≤ vec_capacity out.old }
    ensures puts { (text : List ℕ) → IsLine line.now text
        → Puts O.answers office.old text office.new out.old.items out.new.items }
    ensures still { result ≡ false → O.accepted office.new ≡ O.accepted office.old }
    ensures one { O.accepted office.new ≤ O.accepted office.old + 1 }
    ensures newline { vec_len out.new + 1 ≤ vec_capacity out.new }
    ensures capacity { vec_capacity out.old ≤ vec_capacity out.new }
{
    if line.long {
        put_long(out);
        false
    } else {
        office.answer(line.bytes.as_slice(), out)
    }
}

/// Answers a line, and ends the answer with a newline. It says whether the answer is to be written
/// now.
pub fn put_reply<O: Office>(office: &mut O, line: &Line, out: &mut Vec<u8>) -> bool
    requires { vec_len out.old + 1024 ≤ vec_capacity out.old }
    ensures replies { (text : List ℕ) → IsLine line.now text
        → Replies O.answers office.old text office.new out.old.items out.new.items }
    ensures still { result ≡ false → O.accepted office.new ≡ O.accepted office.old }
    ensures one { O.accepted office.new ≤ O.accepted office.old + 1 }
    ensures capacity { vec_capacity out.old ≤ vec_capacity out.new }
{
    let must_write = put_line(office, line, out);
    let _ = out.push(b'\n');
    must_write
}
