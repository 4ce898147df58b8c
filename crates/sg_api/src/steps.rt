//! The step that each call asks of the server, and what it comes to.

ghost use Rattle.std.specs.Prelude.{◌≡◌, ◌≤◌, ℕ, List, length};
ghost use Rattle.sg_answers.specs.Answers.{Answers};
ghost use Rattle.sg_answers.specs.Calls.{Enrol, File, MakeEdit, Manifest, PutPiece, TakePlays, call_for, edit_in, plays_in};
ghost use Rattle.sg_answers.specs.Outcomes.{IsTellable};
ghost use Rattle.sg_answers.specs.declared.outcome.Outcome.TheVariants as outcome;
ghost use Rattle.sg_api.specs.Faults.{refusal_of_body, refusal_of_fault, refusal_of_keeper};
ghost use Rattle.sg_base.specs.declared.limits.TheConstants.{BATCH_PLAYS};
ghost use Rattle.sg_bodies.specs.Bodies.{json_at};
ghost use Rattle.sg_replies.specs.declared.saying.Saying.TheVariants as saying;
ghost use Rattle.sg_routes.specs.declared.asked.Asked.TheVariants as asked;
ghost use Rattle.sg_steps.specs.Edits.{IsEdit};
ghost use Rattle.sg_steps.specs.State.{Core};

use crate::body::{EditCall, read_edit_call, read_plays_call};
use sg_answers::{Outcome, enrolled, file_found, manifest_made, piece_put, plays_taken, refused};
use sg_base::{DisplayId, MediaId, Moment, Rows};
use sg_bodies::{BodyFault, PlaysBody};
use sg_edits::Cms;
use sg_http::Form;
use sg_keeper::{Keeper, KeeperFail};
use sg_replies::Refusal;
use sg_report::plays_csv;
use sg_routes::Asked;
use sg_steps::CmsFault;
use sg_views::{manifest_of, piece_of};
use std::alloc::Global;

/// Answers what is asked for by one who may ask it.
pub(crate) fn answer_asked<K: Keeper>(
    alloc: Global,
    cms: &mut Cms,
    keeper: &mut K,
    asked: Asked,
    body: &[u8],
) -> Outcome
    ensures answered { Answers (call_for asked body.now) cms.old (K.view keeper.old)
        result cms.new (K.view keeper.new) }
    ensures tellable { IsTellable result }
{
    match asked {
        Asked::Edits => edits(alloc, cms, keeper, body),
        Asked::Piece { media, offset } => put_piece(cms, keeper, media, offset, body),
        Asked::Report { from, to } => report(alloc, keeper, from, to),
        Asked::Enrol(display) => enrol(cms, keeper, display),
        Asked::Manifest(display) => manifest(alloc, cms, keeper, display),
        Asked::File {
            display,
            media,
            offset,
        } => file(alloc, cms, keeper, display, media, offset),
        Asked::Plays(display) => plays(alloc, cms, keeper, display, body),
    }
}

// ---- faults

fn faulty(fault: CmsFault) -> Outcome
    ensures outcome { result ≡ outcome.Said (saying.Refused (refusal_of_fault fault)) }
    ensures tellable { IsTellable result }
{
    match fault {
        CmsFault::Keeper => refused(Refusal::Keeper),
        CmsFault::Memory => refused(Refusal::Memory),
    }
}

fn failed(fail: KeeperFail) -> Outcome
    ensures outcome { result ≡ outcome.Said (saying.Refused (refusal_of_keeper fail)) }
    ensures tellable { IsTellable result }
{
    match fail {
        KeeperFail::Failed => refused(Refusal::Keeper),
        KeeperFail::Memory => refused(Refusal::Memory),
    }
}

fn unread(fault: BodyFault) -> Outcome
    ensures outcome { result ≡ outcome.Said (saying.Refused (refusal_of_body fault)) }
    ensures tellable { IsTellable result }
{
    match fault {
        BodyFault::Body => refused(Refusal::Body),
        BodyFault::Memory => refused(Refusal::Memory),
    }
}

// ---- the operator's

fn edits<K: Keeper>(alloc: Global, cms: &mut Cms, keeper: &mut K, body: &[u8]) -> Outcome
    ensures answered { Answers (edit_in (json_at body.now)) cms.old (K.view keeper.old)
        result cms.new (K.view keeper.new) }
    ensures tellable { IsTellable result }
{
    match read_edit_call(alloc, body) {
        Ok(call) => make_edit(cms, keeper, &call),
        Err(fault) => unread(fault),
    }
}

fn make_edit<K: Keeper>(cms: &mut Cms, keeper: &mut K, call: &EditCall) -> Outcome
    requires { IsEdit call.now.edit }
    ensures answered { Answers (MakeEdit call.now.client call.now.seq call.now.edit) cms.old (K.view keeper.old)
        result cms.new (K.view keeper.new) }
    ensures tellable { IsTellable result }
{
    match cms.edit(keeper, call.client, call.seq, &call.edit) {
        Ok(reply) => Outcome::Edited(reply),
        Err(fault) => faulty(fault),
    }
}

fn put_piece<K: Keeper>(
    cms: &mut Cms,
    keeper: &mut K,
    media: MediaId,
    offset: u32,
    bytes: &[u8],
) -> Outcome
    ensures answered { Answers (PutPiece media offset bytes.now) cms.old (K.view keeper.old)
        result cms.new (K.view keeper.new) }
    ensures tellable { IsTellable result }
{
    match cms.put_piece(keeper, media, offset, bytes) {
        Ok(reply) => piece_put(reply),
        Err(fault) => faulty(fault),
    }
}

fn report<K: Keeper>(alloc: Global, keeper: &mut K, from: Moment, to: Moment) -> Outcome
    ensures answered { (core : Core) (body : List ℕ) →
        Answers (call_for (asked.Report from to) body) core (K.view keeper.old) result core (K.view keeper.new) }
    ensures tellable { IsTellable result }
{
    if to < from {
        return refused(Refusal::Range);
    }
    match plays_csv(alloc, keeper, from, to) {
        Ok(text) => Outcome::Gives(Form::Csv, Rows::from_vec(text)),
        Err(fail) => failed(fail),
    }
}

// ---- a display's

fn enrol<K: Keeper>(cms: &mut Cms, keeper: &mut K, display: DisplayId) -> Outcome
    ensures answered { Answers (Enrol display) cms.old (K.view keeper.old)
        result cms.new (K.view keeper.new) }
    ensures tellable { IsTellable result }
{
    match cms.enrol(keeper, display) {
        Ok(reply) => enrolled(reply),
        Err(fault) => faulty(fault),
    }
}

fn manifest<K: Keeper>(alloc: Global, cms: &Cms, keeper: &K, display: DisplayId) -> Outcome
    ensures answered { Answers (Manifest display) cms.now (K.view keeper.now)
        result cms.now (K.view keeper.now) }
    ensures tellable { IsTellable result }
{
    match manifest_of(alloc, cms.tables(), display) {
        Ok(reply) => manifest_made(reply),
        Err(_) => refused(Refusal::Memory),
    }
}

fn file<K: Keeper>(
    alloc: Global,
    cms: &Cms,
    keeper: &mut K,
    display: DisplayId,
    media: MediaId,
    offset: u32,
) -> Outcome
    ensures answered { Answers (File display media offset) cms.now (K.view keeper.old)
        result cms.now (K.view keeper.new) }
    ensures tellable { IsTellable result }
{
    match piece_of(alloc, cms.tables(), keeper, display, media, offset) {
        Ok(reply) => file_found(media, reply),
        Err(fail) => failed(fail),
    }
}

fn plays<K: Keeper>(
    alloc: Global,
    cms: &mut Cms,
    keeper: &mut K,
    display: DisplayId,
    body: &[u8],
) -> Outcome
    ensures answered { Answers (plays_in display (json_at body.now)) cms.old (K.view keeper.old)
        result cms.new (K.view keeper.new) }
    ensures tellable { IsTellable result }
{
    match read_plays_call(alloc, body) {
        Ok(batch) => take_plays(cms, keeper, display, &batch),
        Err(fault) => unread(fault),
    }
}

fn take_plays<K: Keeper>(
    cms: &mut Cms,
    keeper: &mut K,
    display: DisplayId,
    batch: &PlaysBody,
) -> Outcome
    requires { length batch.now.plays ≤ BATCH_PLAYS }
    ensures answered { Answers (TakePlays display batch.now.epoch batch.now.first batch.now.plays) cms.old
        (K.view keeper.old) result cms.new (K.view keeper.new) }
    ensures tellable { IsTellable result }
{
    match cms.plays(
        keeper,
        display,
        batch.epoch,
        batch.first,
        batch.plays.as_slice(),
    ) {
        Ok(reply) => plays_taken(reply),
        Err(fault) => faulty(fault),
    }
}
