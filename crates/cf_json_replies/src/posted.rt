//! What is given for a call, in JSON.

ghost use Rattle.std.specs.Prelude.{◌≡◌, ◌+◌, ◌≤◌, ◌++◌, IsOk, OnOk, OnErr, vec_len, vec_capacity};
ghost use Rattle.cf_json_members.specs.Objects.{text_of};
ghost use Rattle.cf_json_replies.specs.Replies as spec;
ghost use Rattle.cf_json_replies.specs.Replies.{IsBrief};

use crate::replies::{write_done, write_refused, write_true};
use crate::shown::write_shown;
use cf_calls::{Body, Posted, Reply};
use std::alloc::{AllocError, Global};

fn write_reply(alloc: Global, reply: &Reply, out: &mut Vec<u8>) -> Result<(), AllocError>
    ensures text { OnOk result
        (out.new.items ≡ out.old.items ++ text_of (spec.reply_data reply.now)) }
    ensures room { vec_len out.old + 1024 ≤ vec_capacity out.old → spec.IsBriefBody reply.now.body
        → IsOk result }
    ensures err { OnErr result (out.new.items ≡ out.old.items) }
    ensures capacity { vec_capacity out.old ≤ vec_capacity out.new }
    ensures newline { OnOk result (vec_len out.new + 1 ≤ vec_capacity out.new) }
{
    match &reply.body {
        Body::Done { made, was } => write_done(out, reply.at, made, *was),
        Body::Refused(refusal) => write_refused(out, reply.at, refusal),
        Body::Shown(shown) => write_shown(alloc, out, reply.at, shown),
    }
}

/// Appends the text that answers a call, and keeps room for one byte more, such as a newline. Where
/// there is no memory `out` stays. The answer of a look takes memory. Every other one takes none
/// where 1,024 bytes are free, since a voucher has at most 32 items and so at most 32 assets.
pub fn write_posted(alloc: Global, posted: &Posted, out: &mut Vec<u8>) -> Result<(), AllocError>
    ensures text { OnOk result (out.new.items ≡ out.old.items ++ spec.text posted.now) }
    ensures room { vec_len out.old + 1024 ≤ vec_capacity out.old → IsBrief posted.now
        → IsOk result }
    ensures err { OnErr result (out.new.items ≡ out.old.items) }
    ensures capacity { vec_capacity out.old ≤ vec_capacity out.new }
    ensures newline { OnOk result (vec_len out.new + 1 ≤ vec_capacity out.new) }
{
    match posted {
        Posted::Reply(reply) => write_reply(alloc, reply, out),
        Posted::Disk => write_true(out, "disk"),
        Posted::NoMemory => write_true(out, "memory"),
    }
}
