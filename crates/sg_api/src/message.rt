//! One message, from its bytes to what it comes to.

ghost use Rattle.std.specs.Prelude.{◌≡◌, Ok, option_map};
ghost use Rattle.sg_answers.specs.Answers.{Answers};
ghost use Rattle.sg_answers.specs.Calls.{call_by};
ghost use Rattle.sg_answers.specs.Outcomes.{IsTellable};
ghost use Rattle.sg_api.specs.Faults.{misrouted};
ghost use Rattle.sg_http.specs.Messages.{bytes_at};
ghost use Rattle.sg_routes.specs.Asked.{ask};

use crate::steps::answer_asked;
use sg_answers::{Outcome, may_ask, refused};
use sg_edits::Cms;
use sg_http::{Span, Verb};
use sg_keeper::Keeper;
use sg_replies::Refusal;
use sg_routes::{Asked, RouteFault, ask};
use std::alloc::Global;

/// Answers a message by its method, its target, its key and its body.
pub(crate) fn answer_parts<K: Keeper>(
    alloc: Global,
    cms: &mut Cms,
    operator: &[u8],
    keeper: &mut K,
    method: Verb,
    target: &[u8],
    key: Option<&[u8]>,
    body: &[u8],
) -> Outcome
    ensures answered { Answers (call_by operator.now cms.old.rows (ask method target.now)
        (option_map (λ k. k.now) key.entry) body.now) cms.old (K.view keeper.old)
        result cms.new (K.view keeper.new) }
    ensures tellable { IsTellable result }
{
    match ask(method, target) {
        Ok(asked) => answer_holder(alloc, cms, operator, keeper, asked, key, body),
        Err(fault) => misrouted(fault),
    }
}

// What a message comes to that asks for nothing that there is.
fn misrouted(fault: RouteFault) -> Outcome
    ensures { result ≡ misrouted fault }
{
    match fault {
        RouteFault::Path => refused(Refusal::Path),
        RouteFault::Method(verb) => Outcome::OtherMethod(verb),
    }
}

// Answers what is asked for, if the key of its message is the one for that.
fn answer_holder<K: Keeper>(
    alloc: Global,
    cms: &mut Cms,
    operator: &[u8],
    keeper: &mut K,
    asked: Asked,
    key: Option<&[u8]>,
    body: &[u8],
) -> Outcome
    ensures answered { Answers (call_by operator.now cms.old.rows (Ok asked)
        (option_map (λ k. k.now) key.entry) body.now) cms.old (K.view keeper.old)
        result cms.new (K.view keeper.new) }
    ensures tellable { IsTellable result }
{
    if may_ask(operator, cms.tables(), &asked, key) {
        answer_asked(alloc, cms, keeper, asked, body)
    } else {
        refused(Refusal::Key)
    }
}

/// The bytes of a stream in a range, as far as the stream has them.
pub(crate) fn part(stream: &[u8], span: Span) -> &[u8]
    ensures { result.now ≡ bytes_at stream.now span }
{
    let end = span.to.min(stream.len());
    if span.from < end {
        &stream[span.from..end]
    } else {
        &[]
    }
}

/// The bytes in a range, if there is one.
pub(crate) fn part_if(stream: &[u8], span: Option<Span>) -> Option<&[u8]>
    ensures { option_map (λ k. k.now) result ≡ option_map (bytes_at stream.now) span }
{
    match span {
        Some(span) => Some(part(stream, span)),
        None => None,
    }
}
