//! A list of calls, one after another.

ghost use Rattle.std.specs.Prelude.{◌≡◌, ◌+◌, ◌≤◌, ◌<◌, [], ◌∷◌, ◌++◌, All, IfOk, OnErr, length};
ghost use Rattle.std.specs.Vec.{vec_capacity, vec_len};
ghost use Rattle.sg_edit_runs.specs.declared.call.Answer.{Answer};
ghost use Rattle.sg_edit_runs.specs.At.{Counts, IsAt};
ghost use Rattle.sg_edit_runs.specs.Steps.{IsLawful, Runs, state};
ghost use Rattle.sg_keeper.specs.View.{Ran, Same};
ghost use Rattle.sg_steps.specs.State.{Content};

use crate::call::{Answer, Call};
use crate::calls::make;
use sg_edits::{Cms, Settings};
use sg_keeper::Keeper;
use std::alloc::{AllocError, Global};

/// Makes calls in their order, and gives the answer to each. The server is loaded again with these settings.
pub fn run<K: Keeper>(
    alloc: Global,
    cms: &mut Cms,
    keeper: &mut K,
    settings: Settings,
    calls: &[Call],
) -> Result<Vec<Answer>, AllocError>
    requires lawful { All IsLawful calls.now }
    requires limit { settings.plays_limit ≡ cms.old.limit }

    // Each call is a step with its answer, and the keeper's rows stand for the server and the content at the end.
    ensures runs { IfOk result (λ answers. (content : Content) → IsAt (K.view keeper.old) cms.old content →
        (end : Content) × Runs (state cms.old content) calls.now answers.items (state cms.new end)
        × IsAt (K.view keeper.new) cms.new end) }

    // The keeper's count rose with the answers that blame it, and else it stayed.
    ensures counts { IfOk result (λ answers. Counts answers.items (K.view keeper.old) (K.view keeper.new)) }

    // Without memory for the answers no call is made.
    ensures unmade { OnErr result (cms.new ≡ cms.old) }
    ensures idle { OnErr result (Ran 0 (K.view keeper.old) (K.view keeper.new)) }
    ensures same { OnErr result (Same (K.view keeper.old) (K.view keeper.new)) }
{
    let mut answers = Vec::new(alloc);
    answers.reserve(calls.len())?;
    make_all(alloc, cms, keeper, settings, calls, &mut answers);
    Ok(answers)
}

// Makes calls for whose answers there is room.
fn make_all<K: Keeper>(
    alloc: Global,
    cms: &mut Cms,
    keeper: &mut K,
    settings: Settings,
    calls: &[Call],
    answers: &mut Vec<Answer>,
)
    requires lawful { All IsLawful calls.now }
    requires limit { settings.plays_limit ≡ cms.old.limit }
    requires empty { answers.old.items ≡ [] }
    requires none { vec_len answers.old ≡ 0 }
    requires room { length calls.now ≤ vec_capacity answers.old }
    ensures runs { (content : Content) → IsAt (K.view keeper.old) cms.old content →
        (end : Content) × Runs (state cms.old content) calls.now answers.new.items (state cms.new end)
        × IsAt (K.view keeper.new) cms.new end }
    ensures counts { Counts answers.new.items (K.view keeper.old) (K.view keeper.new) }
{
    for call in calls {
        let answer = make(alloc, cms, keeper, settings, call);
        push_within(answers, answer);
    }
}

// Pushes an answer for which there is room.
fn push_within(answers: &mut Vec<Answer>, answer: Answer)
    requires { vec_len answers.old < vec_capacity answers.old }
    ensures items { answers.new.items ≡ answers.old.items ++ answer ∷ [] }
    ensures len { vec_len answers.new ≡ vec_len answers.old + 1 }
    ensures capacity { vec_capacity answers.old ≤ vec_capacity answers.new }
{
    match answers.push(answer) {
        Ok(()) => {}
        Err(_) => {}
    }
}
