//! The words of the command line.

ghost use Rattle.std.specs.Prelude.{◌≡◌, ℕ, List, ◌∷◌, Some, IfOk, MatchOption};
ghost use Rattle.sg_words.specs.Options.{texts};
ghost use Rattle.sg_words.specs.Table.{said, said_in};
ghost use Rattle.signage.specs.Words.{Names, NamedBy, NamesNone, IsMoment, AreMoments, NoMoments, ArePreviewWords, IsPreviewOf, command_said};

use sg_base::limits::PREVIEW_MOMENTS;
use sg_base::{Moment, Rows};
use sg_words::Command as Said;
use std::alloc::{AllocError, Global};

/// What the words ask for.
#[derive(Debug, Drop)]
pub enum Command {
    /// The timeline of one manifest at these moments, of which there are 1 to 1,000.
    Preview(Rows<Moment>),
    /// The report of the plays that begin from one moment on and before another.
    Report(Moment, Moment),
    /// The edits of the input.
    Edit,
    /// So many connections, with this key of the operator.
    Serve(Rows<u8>, u32),
}

/// The command that the words name, if they are in the command table.
pub(crate) fn command_of(alloc: Global, words: &[String]) -> Result<Option<Command>, AllocError>
    ensures { IfOk result (λ o. MatchOption o (NamesNone (texts words.now)) (λ c. Names (texts words.now) c)) }
{
    match words {
        [] => Ok(None),
        [name, others @ ..] => named(alloc, name.as_str(), others, words),
    }
}

/// The command of this name with these words after it.
fn named(
    alloc: Global,
    name: &str,
    others: &[String],
    words: &[String],
) -> Result<Option<Command>, AllocError>
    requires { texts words.now ≡ name.now ∷ texts others.now }
    ensures { IfOk result (λ o. MatchOption o
        ((c : Command) → NamedBy name.now (texts others.now) c → ⊥)
        (λ c. NamedBy name.now (texts others.now) c)) }
{
    if name == "preview" {
        preview_of(alloc, others)
    } else {
        command_said(alloc, words)
    }
}

/// The command that the words say by the command table, if this program has it.
fn command_said(alloc: Global, words: &[String]) -> Result<Option<Command>, AllocError>
    ensures { IfOk result (λ o. o ≡ command_said (said_in (texts words.now))) }
{
    match sg_words::command_of(alloc, words) {
        Ok(Some(found)) => command_in(alloc, &found),
        Ok(None) => Ok(None),
        Err(refused) => Err(refused),
    }
}

fn command_in(alloc: Global, found: &Said<'_>) -> Result<Option<Command>, AllocError>
    ensures { IfOk result (λ o. o ≡ command_said (Some (said found.now))) }
{
    match found {
        Said::Report { from, to, .. } => Ok(Some(Command::Report(*from, *to))),
        Said::Edit { .. } => Ok(Some(Command::Edit)),
        Said::Serve {
            key,
            connections,
            ..
        } => {
            let key = Vec::from_slice(alloc, key.as_bytes())?;
            Ok(Some(Command::Serve(Rows::from_vec(key), *connections)))
        }
        Said::Format { .. } | Said::Play { .. } | Said::Rehearse | Said::Made(_) => Ok(None),
    }
}

/// A preview of these moments.
fn preview_of(alloc: Global, others: &[String]) -> Result<Option<Command>, AllocError>
    ensures { IfOk result (λ o. MatchOption o
        ((ms : List ℕ) → ArePreviewWords (texts others.now) ms → ⊥)
        (IsPreviewOf (texts others.now))) }
{
    if others.is_empty() || others.len() > PREVIEW_MOMENTS {
        return Ok(None);
    }
    match moments_of(alloc, others)? {
        Some(moments) => Ok(Some(Command::Preview(Rows::from_vec(moments)))),
        None => Ok(None),
    }
}

/// The moments that the words are, if each is one.
fn moments_of(alloc: Global, words: &[String]) -> Result<Option<Vec<Moment>>, AllocError>
    ensures { IfOk result (λ o. MatchOption o
        (NoMoments (texts words.now))
        (λ ms. AreMoments (texts words.now) ms.items)) }
{
    let mut moments = Vec::new(alloc);
    for word in words {
        match moment_of(alloc, word.as_str())? {
            Some(moment) => moments.push(moment)?,
            None => return Ok(None),
        }
    }
    Ok(Some(moments))
}

/// The moment that a word is: a decimal number, read leniently, written again and compared.
fn moment_of(alloc: Global, word: &str) -> Result<Option<Moment>, AllocError>
    ensures { IfOk result (λ o. MatchOption o ((m : ℕ) → IsMoment word.now m → ⊥) (λ m. IsMoment word.now m)) }
{
    let Ok(seconds) = word.parse::<u32>() else {
        return Ok(None);
    };
    let written = seconds.to_string(alloc)?;
    if written.as_str() == word {
        Ok(Moment::new(seconds))
    } else {
        Ok(None)
    }
}
