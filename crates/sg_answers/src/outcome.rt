//! What a message comes to, as an answer.

ghost use Rattle.std.specs.Prelude.{◌≡◌};
ghost use Rattle.sg_answers.specs.Outcomes.{IsTellable, Tells, allow_of, form_of, status_of};
ghost use Rattle.sg_http.specs.Texts.{IsAllow, IsStatus};

use sg_base::Rows;
use sg_connection::{Answer, Body};
use sg_http::{Form, Verb};
use sg_records::Reply;
use sg_replies::{Refusal, Saying, reply_body};

/// What a message comes to.
#[derive(Drop)]
pub enum Outcome {
    /// The reply to an edit.
    Edited(Reply),
    Said(Saying),
    /// The path takes another method: this one.
    OtherMethod(Verb),
    /// A manifest, the bytes of a file, or a report, by its form.
    Gives(Form, Rows<u8>),
}

impl Outcome {
    /// The answer that tells it. It takes no memory.
    pub fn into_answer(self) -> Answer
        requires { IsTellable self }
        ensures tells { Tells result self }
        ensures status { IsStatus result.status }
        ensures allow { IsAllow result.status result.allow }
    {
        let status = status(&self);
        let form = form(&self);
        let allow = allow(&self);
        let body = match self {
            Outcome::Edited(reply) => Body::Short(reply_body(reply)),
            Outcome::Said(saying) => Body::Short(saying.text()),
            Outcome::OtherMethod(_) => Body::Short(Saying::Refused(Refusal::Method).text()),
            Outcome::Gives(_, bytes) => Body::Long(bytes),
        };
        Answer {
            status,
            form,
            allow,
            body,
        }
    }
}

#[tactic(auto, unfolding(sg_http::specs::Texts::reason))]
fn status(outcome: &Outcome) -> u16
    ensures value { result ≡ status_of outcome.now }
    ensures known { IsStatus result }
{
    match outcome {
        Outcome::Edited(reply) => reply.status(),
        Outcome::Said(saying) => saying.status(),
        Outcome::OtherMethod(_) => Refusal::Method.status(),
        Outcome::Gives(..) => 200,
    }
}

fn form(outcome: &Outcome) -> Form
    ensures { result ≡ form_of outcome.now }
{
    match outcome {
        Outcome::Gives(form, _) => *form,
        Outcome::Edited(_) => Form::Json,
        Outcome::Said(_) => Form::Json,
        Outcome::OtherMethod(_) => Form::Json,
    }
}

fn allow(outcome: &Outcome) -> Option<Verb>
    ensures { result ≡ allow_of outcome.now }
{
    match outcome {
        Outcome::OtherMethod(verb) => Some(*verb),
        Outcome::Edited(_) => None,
        Outcome::Said(_) => None,
        Outcome::Gives(..) => None,
    }
}
