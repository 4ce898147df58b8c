// One record of the ring: 64 bytes, of which the first is the gate. Behind the gate stand number, event, layout, from, to
// and epoch, of four bytes each, low byte first, and then zeros.
ghost use Rattle.std.specs.Prelude.{◌≡◌, ◌==◌, ◌^◌, ◌+◌, ◌<◌, ◌≤◌, length, slice_index, OnOk, IfOk, IfErr, Some, None};
ghost use Rattle.sg_disk.specs.StandsFor.{fields};
ghost use Rattle.sg_journal.specs.Records.{field, is_own, entry_of, wrong_play, wrong_of, wrong_at};

use sg_base::limits::{JOURNAL_RECORDS, LAST_MOMENT, MAX_PLAYS};
use sg_base::{Moment, PlayBody};
use sg_disk::RECORD_LEN;

// Where the fields stand in a record.
const NUMBER: usize = 4;

const EVENT: usize = 8;

const LAYOUT: usize = 12;

const FROM: usize = 16;

const TO: usize = 20;

const EPOCH: usize = 24;

/// An open record: a play and its number.
#[derive(Clone, Copy, Debug)]
pub struct Entry {
    pub number: u32,
    pub play: PlayBody,
}

/// What an open record has wrong: the place of a field in it, and what stands there.
#[derive(Clone, Copy, Debug)]
pub struct Wrong {
    pub place: u32,
    pub found: u32,
}

/// The bytes of a record behind its gate and the three after it.
pub fn record_fields(epoch: u32, number: u32, play: &PlayBody) -> [u8; 60]
    ensures fields { result ≡ fields epoch number play.now }
    ensures long { length result ≡ 60 }
    ensures ranges { (play.now.event < 2 ^ 32) × (play.now.layout < 2 ^ 32)
        × (play.now.to ≤ LAST_MOMENT) }
{
    let event = play.event;
    let layout = play.layout;
    let [n0, n1, n2, n3] = number.to_le_bytes();
    let [v0, v1, v2, v3] = event.to_le_bytes();
    let [l0, l1, l2, l3] = layout.to_le_bytes();
    let [f0, f1, f2, f3] = play.from.seconds().to_le_bytes();
    let [t0, t1, t2, t3] = play.to.seconds().to_le_bytes();
    let [e0, e1, e2, e3] = epoch.to_le_bytes();
    [
        n0, n1, n2, n3, v0, v1, v2, v3, l0, l1, l2, l3, f0, f1, f2, f3, t0, t1, t2, t3, e0, e1, e2,
        e3, 0, 0, 0, 0, 0, 0, 0, 0, 0, 0, 0, 0, 0, 0, 0, 0, 0, 0, 0, 0, 0, 0, 0, 0, 0, 0, 0, 0, 0,
        0, 0, 0, 0, 0, 0, 0,
    ]
}

// A field of a record.
fn field(bytes: &[u8], place: usize) -> u32
    requires { place + 4 ≤ length bytes.now }
    ensures { result ≡ field bytes.now place }
{
    u32::from_le_bytes([
        bytes[place],
        bytes[place + 1],
        bytes[place + 2],
        bytes[place + 3],
    ])
}

// Whether the play in record k may have this number.
fn is_own(k: u64, number: u32) -> bool
    ensures { result ≡ is_own k number }
{
    1 <= number && u64::from(number) <= MAX_PLAYS && u64::from(number - 1) % JOURNAL_RECORDS == k
}

// One thing that is wrong.
fn wrong_field(place: usize, found: u32) -> Option<Wrong>
    requires { place ≤ 60 }
    ensures { result ≡ Some (record { place = place; found = found }) }
{
    Some(Wrong {
        place: place as u32,
        found,
    })
}

// What the play of a record has wrong.
fn wrong_play(bytes: &[u8]) -> Option<Wrong>
    requires { length bytes.now ≡ RECORD_LEN }
    ensures { result ≡ wrong_play bytes.now }
{
    let from = field(bytes, FROM);
    let to = field(bytes, TO);
    if to <= from {
        return wrong_field(TO, to);
    }
    if from > LAST_MOMENT {
        return wrong_field(FROM, from);
    }
    if to > LAST_MOMENT {
        return wrong_field(TO, to);
    }
    if field(bytes, LAYOUT) == 0 {
        return wrong_field(LAYOUT, 0);
    }
    None
}

// What an open record has wrong.
fn wrong_of(bytes: &[u8], k: u64, epoch: u32) -> Option<Wrong>
    requires { length bytes.now ≡ RECORD_LEN }
    ensures { result ≡ wrong_of epoch k bytes.now }
{
    let number = field(bytes, NUMBER);
    if !is_own(k, number) {
        return wrong_field(NUMBER, number);
    }
    let found = field(bytes, EPOCH);
    if found != epoch {
        return wrong_field(EPOCH, found);
    }
    wrong_play(bytes)
}

// The play of a record whose moments are none after 2099.
fn read_play(bytes: &[u8]) -> PlayBody
    requires long { length bytes.now ≡ RECORD_LEN }
    requires from { field bytes.now FROM ≤ LAST_MOMENT }
    requires to { field bytes.now TO ≤ LAST_MOMENT }
    ensures { result ≡ record {
      event = field bytes.now EVENT;
      layout = field bytes.now LAYOUT;
      from = field bytes.now FROM;
      to = field bytes.now TO;
    } }
{
    PlayBody {
        event: field(bytes, EVENT),
        layout: field(bytes, LAYOUT),
        from: Moment::new(field(bytes, FROM)).unwrap(),
        to: Moment::new(field(bytes, TO)).unwrap(),
    }
}

/// Reads record k of the ring. Where its gate isn't open there is no entry, and nothing is wrong with it.
pub fn read_record(bytes: &[u8], k: u64, epoch: u32) -> Result<Option<Entry>, Wrong>
    requires { length bytes.now ≡ RECORD_LEN }
    ensures entry { IfOk result (λ entry. entry ≡ entry_of bytes.now) }
    ensures sound { OnOk result (wrong_at epoch k bytes.now ≡ None) }
    ensures wrong { IfErr result (λ wrong. wrong_at epoch k bytes.now ≡ Some wrong) }
{
    if bytes[0] != 1 {
        return Ok(None);
    }
    if let Some(wrong) = wrong_of(bytes, k, epoch) {
        return Err(wrong);
    }
    Ok(Some(Entry {
        number: field(bytes, NUMBER),
        play: read_play(bytes),
    }))
}
