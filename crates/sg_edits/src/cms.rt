//! The server and its calls.

ghost use Rattle.std.specs.Prelude.{◌≡◌, ℕ, ◌<◌, ◌≤◌, None, Ok, [], length, IfOk, IfErr, OnOk, OnErr, option_map};
ghost use Rattle.std.specs.List.{AllByRecursion, find};
ghost use Rattle.std.specs.Result.{IsErrOf};
ghost use Rattle.sg_base.specs.declared.key.Key.{Key};
ghost use Rattle.sg_base.specs.Keys.{number_of};
ghost use Rattle.sg_base.specs.Rising.{IsRising};
ghost use Rattle.sg_loading.specs.Loading.{Failed as LoadFailed, HasKinds, IsFirstBad, IsLawful};
ghost use Rattle.sg_steps.specs.Calls.{Failed};
ghost use Rattle.sg_steps.specs.Edits.{IsEdit};
ghost use Rattle.sg_steps.specs.Epochs.{enrolled, is_after, played, triple_of, with_plays};
ghost use Rattle.sg_steps.specs.State.{AreRows, Content, Stands};
ghost use Rattle.sg_steps.specs.Step.{content_in, expected_in, given_in, step};
ghost use Rattle.sg_edits.specs.Edited.{IsOrdered, core_of};
ghost use Rattle.sg_edits.specs.Media.{asked};
ghost use Rattle.sg_edits.specs.Pieces.{piece_put, with_bytes};
ghost use Rattle.sg_keeper.specs.View.{Ran, Same};
ghost use Rattle.sg_records.specs.Clients.{client_number};
ghost use Rattle.sg_records.specs.Saved.{IsSaved};

use crate::piece_reply::PieceReply;
use crate::settings::Settings;
use crate::{editing, enrolling, pieces};
use sg_base::limits::{BATCH_PLAYS, MAX_CLIENTS};
use sg_base::{DisplayId, MediaId, PlayBody, Sorted};
use sg_keeper::Keeper;
use sg_loading::{LoadFault, load};
use sg_records::{Client, Epoch, Reply};
use sg_steps::{CmsFault, Edit, EnrolReply, PlaysReply, epoch_after, expected};
use sg_tables::Tables;
use std::alloc::Global;
use std::marker::Model;

/// The server.
#[derive(Drop)]
pub struct Cms {
    alloc: Global,
    tables: Tables,
    clients: Sorted<Client>,
    epochs: Sorted<Epoch>,
    settings: Settings,
}

impl Model for Cms {
    ghost use Rattle.sg_steps.specs.State.{Core};
    ghost use Rattle.sg_edits.specs.Edited.{IsOrdered, core_of};

    ghost Value = { Core };

    ghost view = { λ s. core_of s.tables.rows s.clients.items s.epochs.items s.settings.plays_limit };

    ghost invariant = { λ s.
        IsOrdered (core_of s.tables.rows s.clients.items s.epochs.items s.settings.plays_limit) };
}

impl Cms {
    /// A server without rows. It takes no memory.
    pub fn new(alloc: Global, settings: Settings) -> Cms
        ensures { result ≡ core_of [] [] [] settings.plays_limit }
    {
        Cms {
            alloc,
            tables: Tables::new(alloc),
            clients: Sorted::new(alloc),
            epochs: Sorted::new(alloc),
            settings,
        }
    }

    /// The server of these parts.
    pub fn from_parts(
        alloc: Global,
        tables: Tables,
        clients: Sorted<Client>,
        epochs: Sorted<Epoch>,
        settings: Settings,
    ) -> Cms
        requires { IsOrdered (core_of tables.rows clients.items epochs.items settings.plays_limit) }
        ensures { result ≡ core_of tables.rows clients.items epochs.items settings.plays_limit }
    {
        Cms {
            alloc,
            tables,
            clients,
            epochs,
            settings,
        }
    }

    /// The server that the rows of a keeper stand for. Refuses the first row by key that may not be kept after those before
    /// it, whatever comes later. The keeper's rows stay as they are.
    pub fn load<K: Keeper>(
        alloc: Global,
        keeper: &mut K,
        settings: Settings,
    ) -> Result<Cms, LoadFault>
        // Its rows are those of the keeper, and whatever the keeper tells they are lawful.
        ensures rows { IfOk result (λ cms. (K.view keeper.old).told
            → HasKinds (K.view keeper.old).rows
            → AreRows cms (K.view keeper.old).rows) }
        ensures lawful { IfOk result (λ cms. IsLawful cms) }
        ensures clients { IfOk result (λ cms. IsRising client_number cms.clients) }
        ensures limit { IfOk result (λ cms. cms.limit ≡ settings.plays_limit) }

        // A bad row is the first one.
        ensures bad { (at : Key) → IsErrOf result (LoadFault.BadRow at) → (K.view keeper.old).told
            → HasKinds (K.view keeper.old).rows
            → IsFirstBad settings.plays_limit (K.view keeper.old).rows (number_of at) }

        // The keeper ran, or it failed; its rows are as they were.
        ensures ran { OnOk result (Ran 9 (K.view keeper.old) (K.view keeper.new)) }
        ensures failed { IfErr result (λ fault. LoadFailed fault (K.view keeper.old) (K.view keeper.new)) }
        ensures same { Same (K.view keeper.old) (K.view keeper.new) }
    {
        let parts = load(alloc, keeper, settings.plays_limit)?;
        let clients = parts.clients.as_slice();
        prove!(clients.len() <= MAX_CLIENTS as usize);
        Ok(Cms::from_parts(alloc, parts.tables, parts.clients, parts.epochs, settings))
    }

    /// The rows of the server. Each is as it may be kept.
    pub fn tables(&self) -> &Tables
        ensures rows { result.now.rows ≡ self.now.rows }
        ensures saved { AllByRecursion IsSaved self.now.rows }
    {
        &self.tables
    }

    /// The number that a client's next edit has; 0 if it has used up its numbers.
    pub fn expected(&self, client: u32) -> u32
        ensures { result ≡ expected_in self.now.clients client }
    {
        expected(&self.clients, client)
    }

    /// The first given epoch above one, by display and then by its number: the display, the epoch, and how many plays it
    /// has.
    pub fn epoch_after(&self, display: u32, epoch: u32) -> Option<(u32, u32, u32)>
        ensures { result ≡ option_map triple_of (find (is_after display epoch) self.now.epochs) }
    {
        epoch_after(&self.epochs, display, epoch)
    }

    /// Answers an edit. A client's next number is executed, and its reply is kept; the last number is given that reply again.
    pub fn edit<K: Keeper>(
        &mut self,
        keeper: &mut K,
        client: u32,
        seq: u32,
        edit: &Edit,
    ) -> Result<Reply, CmsFault>
        requires { IsEdit edit.now }
        ensures step { IfOk result (λ reply.
            record { core = self.new; reply = reply } ≡ step self.old client seq edit.now) }
        ensures ordered { IsOrdered self.new }

        // The keeper's rows change with the server.
        ensures rows { OnOk result ((content : Content) → (K.view keeper.old).told
            → Stands self.old content (K.view keeper.old).rows
            → Stands self.new (content_in self.new.rows content) (K.view keeper.new).rows) }
        ensures ran { OnOk result (Ran 0 (K.view keeper.old) (K.view keeper.new)) }
        ensures executed { given_in self.old.clients client seq ≡ None →
            OnOk result (Ran 1 (K.view keeper.old) (K.view keeper.new)) }

        // A fault leaves both as they were.
        ensures failed { IfErr result (λ fault. Failed fault (K.view keeper.old) (K.view keeper.new)) }
        ensures unchanged { OnErr result (self.new ≡ self.old) }
        ensures same { OnErr result (Same (K.view keeper.old) (K.view keeper.new)) }
    {
        editing::edit(
            self.alloc,
            &mut self.tables,
            &mut self.clients,
            keeper,
            client,
            seq,
            edit,
        )
    }

    /// Takes a piece of a medium. With the last one the bytes are those that were declared, or all of them are dropped.
    pub fn put_piece<K: Keeper>(
        &mut self,
        keeper: &mut K,
        media: MediaId,
        offset: u32,
        bytes: &[u8],
    ) -> Result<PieceReply, CmsFault>
        // Of a keeper that tells its rows.
        ensures put { IfOk result (λ reply. (content : Content) → (K.view keeper.old).told
            → Stands self.old content (K.view keeper.old).rows
            → let put = piece_put (asked self.old.rows media offset bytes.now (content.bytes media.0)
            (K.view keeper.old).rows) in
            (self.new.rows ≡ put.rows) × (reply ≡ put.reply)
            × Stands self.new (with_bytes media.0 put.stored content) (K.view keeper.new).rows) }

        // Of any keeper: nothing but rows changes.
        ensures others { self.new ≡ record self.old { rows = self.new.rows } }
        ensures ordered { IsOrdered self.new }
        ensures ran { OnOk result (Ran 0 (K.view keeper.old) (K.view keeper.new)) }

        // A fault leaves both as they were.
        ensures failed { IfErr result (λ fault. Failed fault (K.view keeper.old) (K.view keeper.new)) }
        ensures unchanged { OnErr result (self.new ≡ self.old) }
        ensures same { OnErr result (Same (K.view keeper.old) (K.view keeper.new)) }
    {
        pieces::put_piece(self.alloc, &mut self.tables, keeper, media, offset, bytes)
    }

    /// Gives a display its next epoch.
    pub fn enrol<K: Keeper>(
        &mut self,
        keeper: &mut K,
        display: DisplayId,
    ) -> Result<EnrolReply, CmsFault>
        ensures step { IfOk result (λ reply.
            record { core = self.new; reply = reply } ≡ enrolled self.old display.0) }
        ensures ordered { IsOrdered self.new }

        // The keeper's rows change with the server.
        ensures rows { OnOk result ((content : Content) → (K.view keeper.old).told
            → Stands self.old content (K.view keeper.old).rows
            → Stands self.new content (K.view keeper.new).rows) }
        ensures ran { OnOk result (Ran 0 (K.view keeper.old) (K.view keeper.new)) }
        ensures given { (epoch : ℕ) → result ≡ Ok (EnrolReply.Epoch epoch) →
            Ran 1 (K.view keeper.old) (K.view keeper.new) }

        // A fault leaves both as they were.
        ensures failed { IfErr result (λ fault. Failed fault (K.view keeper.old) (K.view keeper.new)) }
        ensures unchanged { OnErr result (self.new ≡ self.old) }
        ensures same { OnErr result (Same (K.view keeper.old) (K.view keeper.new)) }
    {
        enrolling::enrol(self.alloc, &self.tables, &mut self.epochs, keeper, display)
    }

    /// Takes a batch of plays of an epoch, of which the first has this number. Those that are new are added to the others.
    pub fn plays<K: Keeper>(
        &mut self,
        keeper: &mut K,
        display: DisplayId,
        epoch: u32,
        first: u32,
        list: &[PlayBody],
    ) -> Result<PlaysReply, CmsFault>
        requires { length list.now ≤ BATCH_PLAYS }
        ensures step { IfOk result (λ reply. let step = played self.old display.0 epoch first list.now in
            (self.new ≡ record self.old { epochs = step.epochs }) × (reply ≡ step.reply)) }
        ensures ordered { IsOrdered self.new }

        // The keeper's rows change with the server.
        ensures rows { OnOk result ((content : Content) → (K.view keeper.old).told
            → Stands self.old content (K.view keeper.old).rows
            → Stands self.new
            (with_plays display.0 epoch (played self.old display.0 epoch first list.now).added content)
            (K.view keeper.new).rows) }
        ensures ran { OnOk result (Ran 0 (K.view keeper.old) (K.view keeper.new)) }
        ensures added { 0 < length (played self.old display.0 epoch first list.now).added →
            OnOk result (Ran 1 (K.view keeper.old) (K.view keeper.new)) }

        // A fault leaves both as they were.
        ensures failed { IfErr result (λ fault. Failed fault (K.view keeper.old) (K.view keeper.new)) }
        ensures unchanged { OnErr result (self.new ≡ self.old) }
        ensures same { OnErr result (Same (K.view keeper.old) (K.view keeper.new)) }
    {
        let limit = self.settings.plays_limit;
        enrolling::plays(
            self.alloc,
            &mut self.epochs,
            keeper,
            limit,
            (display.0, epoch),
            first,
            list,
        )
    }
}
