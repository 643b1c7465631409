//! The replies to a change that adds nothing.

ghost use Rattle.std.specs.Prelude.{◌≡◌, Some, length};
ghost use Rattle.cf_calls.specs.declared.reply.Body.TheVariants as bodies;
ghost use Rattle.cf_calls.specs.declared.reply.Posted.TheVariants as posted;
ghost use Rattle.cf_model.specs.Results as results;

use cf_calls::{Body, Posted, Refusal, Reply};
use cf_office_history::History;

/// The reply to a change that repeats the call at a place.
pub fn repeat_reply(history: &History, was: u64) -> Posted
    ensures { result ≡ posted.Reply
        (record {
          at = length history.now.entries;
          body = bodies.Done (results.made_at history.now.plan history.now.entries was) (Some was);
        }) }
{
    let made = history.made_at(was);
    Posted::Reply(Reply {
        at: history.len(),
        body: Body::Done {
            made,
            was: Some(was),
        },
    })
}

/// The reply to a change that a rule refuses.
pub fn refusal_reply(history: &History, refusal: Refusal) -> Posted
    ensures { result ≡ posted.Reply
        (record { at = length history.now.entries; body = bodies.Refused refusal }) }
{
    Posted::Reply(Reply {
        at: history.len(),
        body: Body::Refused(refusal),
    })
}
