//! What is said of a line: the call that it is, or the form reply.

ghost use Rattle.cf_calls.specs.Common.{IsCallInForm, IsChangeInForm};

use crate::page::Page;
use cf_calls::{Call, Change};
use cf_json::{CallRefused, FormFault, read_call};
use cf_json_calls::write_call;
use cf_json_replies::write_form;
use std::alloc::Global;

/// Appends a change as the line that a desk sends for it.
pub fn tell_change(page: &mut Page, change: &Change)
    requires { IsChangeInForm change.now }
{
    let is_there = write_call(change, &mut page.bytes).is_ok();
    page.note(is_there);
}

fn tell_call(page: &mut Page, call: &Call)
    requires { IsCallInForm call.now }
{
    match call {
        Call::Look(_) => page.put("a look"),
        Call::Change(change) => tell_change(page, change),
    }
}

fn tell_form(page: &mut Page, alloc: Global, fault: &FormFault) {
    let is_there = write_form(alloc, fault, &mut page.bytes).is_ok();
    page.note(is_there);
}

/// Appends a change as the line that a desk sends for it, that a line is a look, or the form reply.
pub fn tell_line(page: &mut Page, alloc: Global, line: &[u8]) {
    page.put("  ");
    match read_call(alloc, line) {
        Ok(call) => tell_call(page, &call),
        Err(CallRefused::NoMemory) => page.note(false),
        Err(CallRefused::Form(fault)) => tell_form(page, alloc, &fault),
    }
    page.put("\n");
}
