//! An edit over the parts of a server: its tables and its clients.

ghost use Rattle.std.specs.Prelude.{◌≡◌, ℕ, List, Option, Some, None, Ok, IfOk, IfErr, OnOk, OnErr};
ghost use Rattle.sg_base.specs.Rising.{put};
ghost use Rattle.sg_steps.specs.Calls.{Failed, changed_by};
ghost use Rattle.sg_steps.specs.Edits.{IsEdit};
ghost use Rattle.sg_steps.specs.State.{Content, Stands};
ghost use Rattle.sg_steps.specs.Step.{asked, content_in, executed, given_in, step, tried};
ghost use Rattle.sg_edits.specs.Edited.{IsOrdered, core_of, kept_tried, with_client};
ghost use Rattle.sg_keeper.specs.View.{Ran, Same};
ghost use Rattle.sg_records.specs.declared.epoch.Epoch.{Epoch};
ghost use Rattle.sg_records.specs.Clients.{client_number, client_text};
ghost use Rattle.sg_tables.specs.Entries.{after};
ghost use Rattle.sg_tables.specs.Tables.{IsPrepared, change_of};

use sg_base::Sorted;
use sg_keeper::{Change, Keeper};
use sg_records::{Client, Reply, write_client};
use sg_steps::{CmsFault, Edit, attempt, changes_of, given_reply, make};
use sg_tables::{Prepared, Tables};
use std::alloc::{AllocError, Global};

/// Answers an edit. A client's next number is executed, and its reply is kept; the last number is given that reply again.
/// The other parts of the server stay.
pub(crate) fn edit<K: Keeper>(
    alloc: Global,
    tables: &mut Tables,
    clients: &mut Sorted<Client>,
    keeper: &mut K,
    client: u32,
    seq: u32,
    edit: &Edit,
) -> Result<Reply, CmsFault>
    requires { IsEdit edit.now }
    ensures step { (epochs : List Epoch) (limit : ℕ) → IfOk result (λ reply.
        record { core = core_of tables.new.rows clients.new.items epochs limit; reply = reply }
        ≡ step (core_of tables.old.rows clients.old.items epochs limit) client seq edit.now) }
    ensures server { (epochs : List Epoch) (limit : ℕ) →
        IsOrdered (core_of tables.old.rows clients.old.items epochs limit) →
        IsOrdered (core_of tables.new.rows clients.new.items epochs limit) }

    // The keeper's rows change with the server.
    ensures rows { (epochs : List Epoch) (limit : ℕ) →
        IsOrdered (core_of tables.old.rows clients.old.items epochs limit) →
        OnOk result ((content : Content) → (K.view keeper.old).told
        → Stands (core_of tables.old.rows clients.old.items epochs limit) content (K.view keeper.old).rows
        → Stands (core_of tables.new.rows clients.new.items epochs limit)
        (content_in tables.new.rows content) (K.view keeper.new).rows) }
    ensures ran { OnOk result (Ran 0 (K.view keeper.old) (K.view keeper.new)) }
    ensures executed { given_in clients.old.items client seq ≡ None →
        OnOk result (Ran 1 (K.view keeper.old) (K.view keeper.new)) }

    // A fault leaves all as it was.
    ensures failed { IfErr result (λ fault. Failed fault (K.view keeper.old) (K.view keeper.new)) }
    ensures tables { OnErr result (tables.new.rows ≡ tables.old.rows) }
    ensures clients { OnErr result (clients.new.items ≡ clients.old.items) }
    ensures same { OnErr result (Same (K.view keeper.old) (K.view keeper.new)) }
{
    match given_reply(clients, client, seq) {
        Some(reply) => Ok(reply),
        None => execute(alloc, tables, clients, keeper, client, seq, edit),
    }
}

// Executes a client's next edit.
fn execute<K: Keeper>(
    alloc: Global,
    tables: &mut Tables,
    clients: &mut Sorted<Client>,
    keeper: &mut K,
    client: u32,
    seq: u32,
    edit: &Edit,
) -> Result<Reply, CmsFault>
    requires { IsEdit edit.now }
    ensures step { (epochs : List Epoch) (limit : ℕ) → IfOk result (λ reply.
        record { core = core_of tables.new.rows clients.new.items epochs limit; reply = reply }
        ≡ executed (core_of tables.old.rows clients.old.items epochs limit) client seq
        (tried tables.old.rows (asked edit.now))) }
    ensures rows { OnOk result ((K.view keeper.old).told → (K.view keeper.new).rows
        ≡ kept_tried tables.old.rows client seq (tried tables.old.rows (asked edit.now))
        (K.view keeper.old).rows) }
    ensures ran { OnOk result (Ran 1 (K.view keeper.old) (K.view keeper.new)) }

    // A fault leaves all as it was.
    ensures failed { IfErr result (λ fault. Failed fault (K.view keeper.old) (K.view keeper.new)) }
    ensures tables { OnErr result (tables.new.rows ≡ tables.old.rows) }
    ensures clients { OnErr result (clients.new.items ≡ clients.old.items) }
    ensures same { OnErr result (Same (K.view keeper.old) (K.view keeper.new)) }
{
    match attempt(tables, edit)? {
        Ok(prepared) => {
            let known = Client {
                client,
                last: seq,
                reply: Reply::Done(seq),
            };
            commit(alloc, tables, clients, keeper, known, edit, prepared)
        }
        Err(reply) => {
            let known = Client {
                client,
                last: seq,
                reply,
            };
            keep_reply(alloc, clients, keeper, known)
        }
    }
}

// Makes the change of an edit, which is ready, and keeps the reply to it.
fn commit<K: Keeper>(
    alloc: Global,
    tables: &mut Tables,
    clients: &mut Sorted<Client>,
    keeper: &mut K,
    known: Client,
    edit: &Edit,
    prepared: Prepared,
) -> Result<Reply, CmsFault>
    requires edit { IsEdit edit.now }
    requires prepared { IsPrepared tables.old prepared }
    requires asked { asked edit.now ≡ Ok (change_of prepared) }
    ensures reply { IfOk result (λ reply. reply ≡ known.reply) }
    ensures done { OnOk result (tables.new.rows ≡ after tables.old.rows (change_of prepared)) }
    ensures kept { OnOk result (clients.new.items ≡ put client_number known clients.old.items) }
    ensures rows { OnOk result ((K.view keeper.old).told → (K.view keeper.new).rows
        ≡ with_client known (changed_by (change_of prepared) tables.old.rows (K.view keeper.old).rows)) }
    ensures ran { OnOk result (Ran 1 (K.view keeper.old) (K.view keeper.new)) }

    // A fault leaves all as it was.
    ensures failed { IfErr result (λ fault. Failed fault (K.view keeper.old) (K.view keeper.new)) }
    ensures tables { OnErr result (tables.new.rows ≡ tables.old.rows) }
    ensures clients { OnErr result (clients.new.items ≡ clients.old.items) }
    ensures same { OnErr result (Same (K.view keeper.old) (K.view keeper.new)) }
{
    let mut changes = changes_of(alloc, tables, edit)?;
    changes.push(keep(alloc, &known)?)?;
    make(keeper, clients, known, changes.as_slice())?;
    tables.commit(prepared);
    Ok(known.reply)
}

// Keeps the reply to an edit that changes no row.
fn keep_reply<K: Keeper>(
    alloc: Global,
    clients: &mut Sorted<Client>,
    keeper: &mut K,
    known: Client,
) -> Result<Reply, CmsFault>
    ensures reply { IfOk result (λ reply. reply ≡ known.reply) }
    ensures kept { OnOk result (clients.new.items ≡ put client_number known clients.old.items) }
    ensures rows { OnOk result ((K.view keeper.old).told → (K.view keeper.new).rows
        ≡ with_client known (K.view keeper.old).rows) }
    ensures ran { OnOk result (Ran 1 (K.view keeper.old) (K.view keeper.new)) }

    // A fault leaves all as it was.
    ensures failed { IfErr result (λ fault. Failed fault (K.view keeper.old) (K.view keeper.new)) }
    ensures clients { OnErr result (clients.new.items ≡ clients.old.items) }
    ensures same { OnErr result (Same (K.view keeper.old) (K.view keeper.new)) }
{
    let change = keep(alloc, &known)?;
    make(keeper, clients, known, &[change])?;
    Ok(known.reply)
}

// The row of a client.
fn keep(alloc: Global, client: &Client) -> Result<Change, AllocError>
    ensures { IfOk result (λ change. change
        ≡ Change.Put (record { kind = 8; a = client.now.client; b = 0 }) (client_text client.now)) }
{
    Ok(Change::Put(Client::key(client.client), write_client(alloc, client)?))
}
