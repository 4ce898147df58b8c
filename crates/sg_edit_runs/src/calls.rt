//! One call of a server, as it is made.

ghost use Rattle.std.specs.Prelude.{◌≡◌, ◌≤◌, IsTrue, length};
ghost use Rattle.sg_base.specs.declared.limits.TheConstants.{BATCH_PLAYS};
ghost use Rattle.sg_edit_runs.specs.declared.call.Call.TheVariants as of_call;
ghost use Rattle.sg_edit_runs.specs.At.{Leads, Tells};
ghost use Rattle.sg_edit_runs.specs.Steps.{IsLawful};
ghost use Rattle.sg_records.specs.Clients.{is_id};
ghost use Rattle.sg_steps.specs.Edits.{IsEdit};

use crate::call::{Answer, Call};
use sg_base::{DisplayId, MediaId, PlayBody};
use sg_edits::{Cms, Settings};
use sg_keeper::Keeper;
use sg_loading::LoadFault;
use sg_steps::{CmsFault, Edit};
use std::alloc::Global;

/// Makes a call.
pub(crate) fn make<K: Keeper>(
    alloc: Global,
    cms: &mut Cms,
    keeper: &mut K,
    settings: Settings,
    call: &Call,
) -> Answer
    requires lawful { IsLawful call.now }
    requires limit { settings.plays_limit ≡ cms.old.limit }
    ensures leads { Leads (K.view keeper.old) cms.old call.now result (K.view keeper.new) cms.new }
    ensures limit { cms.new.limit ≡ cms.old.limit }
    ensures tells { Tells result (K.view keeper.old) (K.view keeper.new) }
{
    match call {
        Call::Edit { client, seq, edit } => send(cms, keeper, *client, *seq, edit),
        Call::Piece {
            media,
            offset,
            bytes,
        } => put(cms, keeper, *media, *offset, bytes.as_slice()),
        Call::Enrol(display) => enrol(cms, keeper, *display),
        Call::Plays {
            display,
            epoch,
            first,
            list,
        } => play(cms, keeper, *display, *epoch, *first, list.as_slice()),
        Call::Load => load_again(alloc, cms, keeper, settings),
    }
}

fn send<K: Keeper>(cms: &mut Cms, keeper: &mut K, client: u32, seq: u32, edit: &Edit) -> Answer
    requires client { IsTrue (is_id client) }
    requires edit { IsEdit edit.now }
    ensures leads { Leads (K.view keeper.old) cms.old (of_call.Edit client seq edit.now) result
        (K.view keeper.new) cms.new }
    ensures limit { cms.new.limit ≡ cms.old.limit }
    ensures tells { Tells result (K.view keeper.old) (K.view keeper.new) }
{
    match cms.edit(keeper, client, seq, edit) {
        Ok(reply) => Answer::Edited(reply),
        Err(fault) => Answer::Failed(fault),
    }
}

fn put<K: Keeper>(
    cms: &mut Cms,
    keeper: &mut K,
    media: MediaId,
    offset: u32,
    bytes: &[u8],
) -> Answer
    ensures leads { Leads (K.view keeper.old) cms.old (of_call.Piece media offset bytes.now) result
        (K.view keeper.new) cms.new }
    ensures limit { cms.new.limit ≡ cms.old.limit }
    ensures tells { Tells result (K.view keeper.old) (K.view keeper.new) }
{
    match cms.put_piece(keeper, media, offset, bytes) {
        Ok(reply) => Answer::Put(reply),
        Err(fault) => Answer::Failed(fault),
    }
}

fn enrol<K: Keeper>(cms: &mut Cms, keeper: &mut K, display: DisplayId) -> Answer
    ensures leads { Leads (K.view keeper.old) cms.old (of_call.Enrol display) result (K.view keeper.new) cms.new }
    ensures limit { cms.new.limit ≡ cms.old.limit }
    ensures tells { Tells result (K.view keeper.old) (K.view keeper.new) }
{
    match cms.enrol(keeper, display) {
        Ok(reply) => Answer::Enrolled(reply),
        Err(fault) => Answer::Failed(fault),
    }
}

fn play<K: Keeper>(
    cms: &mut Cms,
    keeper: &mut K,
    display: DisplayId,
    epoch: u32,
    first: u32,
    list: &[PlayBody],
) -> Answer
    requires { length list.now ≤ BATCH_PLAYS }
    ensures leads { Leads (K.view keeper.old) cms.old (of_call.Plays display epoch first list.now) result
        (K.view keeper.new) cms.new }
    ensures limit { cms.new.limit ≡ cms.old.limit }
    ensures tells { Tells result (K.view keeper.old) (K.view keeper.new) }
{
    match cms.plays(keeper, display, epoch, first, list) {
        Ok(reply) => Answer::Played(reply),
        Err(fault) => Answer::Failed(fault),
    }
}

// Puts the server of the keeper's rows in place of the one that is there.
fn load_again<K: Keeper>(alloc: Global, cms: &mut Cms, keeper: &mut K, settings: Settings) -> Answer
    requires { settings.plays_limit ≡ cms.old.limit }
    ensures leads { Leads (K.view keeper.old) cms.old of_call.Load result (K.view keeper.new) cms.new }
    ensures limit { cms.new.limit ≡ cms.old.limit }
    ensures tells { Tells result (K.view keeper.old) (K.view keeper.new) }
{
    match Cms::load(alloc, keeper, settings) {
        Ok(loaded) => {
            *cms = loaded;
            Answer::Loaded
        }
        Err(LoadFault::Keeper) => Answer::Failed(CmsFault::Keeper),
        Err(LoadFault::BadRow(key)) => Answer::BadRow(key),
        Err(LoadFault::Memory) => Answer::Failed(CmsFault::Memory),
    }
}
