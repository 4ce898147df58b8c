//! Clients, and what each was answered last.

ghost use Rattle.std.specs.Prelude.{◌≡◌, ◌↔◌, IfOk, IfSome, IsTrue, MatchOption, Some};
ghost use Rattle.serde_json.specs.View.{view};
ghost use Rattle.sg_base.specs.Keys.{number_of};
ghost use Rattle.sg_records.specs.Clients.{IsClient, client_json, client_number, client_text, is_client, is_id, is_kept, is_limit, is_row};
ghost use Rattle.sg_records.specs.Reading.{client_in};
ghost use Rattle.sg_records.specs.declared.client.Client.{Client};

use crate::members::{number_in, reply_in};
use crate::reply::Reply;
use crate::text;
use serde_json::{Value, json};
use sg_base::limits::{
    MAX_CAMPAIGNS, MAX_DAYPARTS, MAX_DISPLAYS, MAX_EVENTS, MAX_GROUPS, MAX_LAYOUTS, MAX_MEDIA,
    MAX_MEDIA_BYTES,
};
use sg_base::{Key, Kind, Rank, Ranked, Rows};
use std::alloc::{AllocError, Global};

/// A client that sends edits, with the number of its last one and the reply to it.
#[derive(Clone, Copy, Debug, PartialEq, Eq)]
pub struct Client {
    pub client: u32,
    pub last: u32,
    pub reply: Reply,
}

impl Client {
    /// The key under which a client is kept.
    pub fn key(client: u32) -> Key
        ensures { result ≡ record { kind = 8; a = client; b = 0 } }
    {
        Key {
            kind: 8,
            a: u64::from(client),
            b: 0,
        }
    }
}

impl Ranked for Client {
    ghost rank = { client_number };

    fn rank(&self) -> Rank {
        Client::key(self.client).rank()
    }
}

fn value_of(alloc: Global, client: &Client) -> Result<Value, AllocError>
    ensures { IfOk result (λ v. view v ≡ client_json client.now) }
{
    let reply = client.reply.write(alloc)?;
    json!(in alloc; { "last": client.last, "reply": reply, "status": client.reply.status() })
}

/// The text of a client's row.
#[tactic(auto, unfolding(crate::specs::Clients::client_text))]
pub fn write_client(alloc: Global, client: &Client) -> Result<Rows<u8>, AllocError>
    ensures { IfOk result (λ text. text ≡ client_text client.now) }
{
    let value = value_of(alloc, client)?;
    text::write(alloc, &value)
}

fn is_id(n: u32) -> bool
    ensures { result ≡ is_id n }
{
    n > 0
}

fn is_row(kind: Kind, id: u32) -> bool
    ensures { result ≡ is_row kind id }
{
    match kind {
        Kind::Client => false,
        Kind::Media
        | Kind::Layout
        | Kind::Campaign
        | Kind::Daypart
        | Kind::Group
        | Kind::Display
        | Kind::Event => is_id(id),
    }
}

fn is_limit(kind: Kind, limit: u32) -> bool
    ensures { result ≡ is_limit kind limit }
{
    match kind {
        Kind::Media => limit == MAX_MEDIA || u64::from(limit) == MAX_MEDIA_BYTES,
        Kind::Layout => limit == MAX_LAYOUTS,
        Kind::Campaign => limit == MAX_CAMPAIGNS,
        Kind::Daypart => limit == MAX_DAYPARTS,
        Kind::Group => limit == MAX_GROUPS,
        Kind::Display => limit == MAX_DISPLAYS,
        Kind::Event => limit == MAX_EVENTS,
        Kind::Client => false,
    }
}

fn is_kept(last: u32, reply: Reply) -> bool
    ensures { result ≡ is_kept last reply }
{
    match reply {
        Reply::Done(seq) => seq == last,
        Reply::Unknown { kind, id } | Reply::Exists { kind, id } => is_row(kind, id),
        Reply::InUse {
            kind,
            id,
            by_kind,
            by_id,
        } => is_row(kind, id) && is_row(by_kind, by_id),
        Reply::Full { kind, limit } => is_limit(kind, limit),
        Reply::Sequence { .. } => false,
        Reply::Invalid(_) => true,
    }
}

fn is_client(client: Client) -> bool
    ensures { result ≡ is_client client }
{
    is_id(client.client) && is_id(client.last) && is_kept(client.last, client.reply)
}

fn client_in(client: u32, value: &Value) -> Option<Client>
    ensures { result ≡ client_in client (view value.now) }
{
    let last = number_in(value, "last")?;
    let reply = reply_in(value.get("reply")?)?;
    Some(Client {
        client,
        last,
        reply,
    })
}

// The number of the client of a key.
fn client_at(key: Key) -> Option<u32>
    ensures found { IfSome result (λ client. number_of key ≡ number_of (record { kind = 8; a = client; b = 0 })) }
    ensures only { (client : Client) → IsClient client → client_number client ≡ number_of key → result ≡ Some client.client }
{
    if key.kind == 8 && key.b == 0 && key.a < 4_294_967_296 {
        Some(key.a as u32)
    } else {
        None
    }
}

// What a text says of a client.
fn said(alloc: Global, number: u32, bytes: &[u8]) -> Result<Option<Client>, AllocError>
    ensures number { IfOk result (λ found. IfSome found (λ c. c.client ≡ number)) }
    ensures again { IfOk result (λ found. (c : Client) → IsClient c → c.client ≡ number
        → client_text c ≡ bytes.now → found ≡ Some c) }
{
    match text::read(alloc, bytes)? {
        Some(value) => Ok(client_in(number, &value)),
        None => Ok(None),
    }
}

// Whether a client is kept with a text.
fn is_kept_so(alloc: Global, client: &Client, bytes: &[u8]) -> Result<bool, AllocError>
    ensures { IfOk result (λ is. IsTrue is ↔ (IsClient client.now × (client_text client.now ≡ bytes.now))) }
{
    if !is_client(*client) {
        return Ok(false);
    }
    let text = write_client(alloc, client)?;
    Ok(text.as_slice() == bytes)
}

// The client of this number that is kept with a text.
fn read_numbered(alloc: Global, number: u32, bytes: &[u8]) -> Result<Option<Client>, AllocError>
    ensures { IfOk result (λ found. MatchOption found
        ((c : Client) → IsClient c → c.client ≡ number → client_text c ≡ bytes.now → ⊥)
        (λ c. IsClient c × (c.client ≡ number) × (client_text c ≡ bytes.now))) }
{
    match said(alloc, number, bytes)? {
        Some(client) => if is_kept_so(alloc, &client, bytes)? {
            Ok(Some(client))
        } else {
            Ok(None)
        },
        None => Ok(None),
    }
}

/// The client that is kept under a key with a text; `None` if no client is kept so.
pub fn read_client(alloc: Global, key: Key, bytes: &[u8]) -> Result<Option<Client>, AllocError>
    ensures { IfOk result (λ found. MatchOption found
        ((c : Client) → IsClient c → client_number c ≡ number_of key → client_text c ≡ bytes.now → ⊥)
        (λ c. IsClient c × (client_number c ≡ number_of key) × (client_text c ≡ bytes.now))) }
{
    match client_at(key) {
        Some(number) => read_numbered(alloc, number, bytes),
        None => Ok(None),
    }
}
