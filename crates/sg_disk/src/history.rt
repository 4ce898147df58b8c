// What a disk in memory had at first, and each call that has changed it since.
ghost use Rattle.std.specs.Prelude.{◌≡◌, ◌+◌, ◌≤◌, ◌<◌, ℕ, Vec, [], ◌∷◌, ◌++◌, length, take, reverse, replicate, slice_index_or, false, true, vec_capacity, OnOk, OnErr, IfOk};
ghost use Rattle.sg_disk.specs.View.{put};
ghost use Rattle.sg_disk.specs.declared.history.Call.{Call};
ghost use Rattle.sg_disk.specs.History.{after, end_of, room_of, is_sync, read_of, Fits, torn_by, picked, is_settled, replayed, torn_replayed, end_by};
ghost use Rattle.sg_disk.specs.HistoryLaws.{Fits-prop};

use std::alloc::{AllocError, Global};

/// A call that changed the disk.
#[derive(Debug, Drop)]
pub enum Call {
    Write { place: u64, bytes: Vec<u8> },
    Resize(u64),
    Sync,
}

/// What a crash makes of each call that no sync followed.
#[derive(Clone, Copy, Debug, PartialEq, Eq)]
pub enum Pick {
    /// Nothing of it was done.
    Nothing,
    /// All of it was done.
    All,
    /// It was done with this byte in the place of each that it wrote.
    Byte(u8),
}

// Writes over a part of these bytes.
fn overwrite(bytes: &mut [u8], place: usize, written: &[u8])
    requires { place + length written.now ≤ length bytes.old }
    ensures { bytes.new ≡ put bytes.old place written.now }
{
    let end = place + written.len();
    bytes[place..end].copy_from_slice(written);
}

// Writes one byte over a part of these.
fn fill(bytes: &mut [u8], place: usize, count: usize, byte: u8)
    requires { place + count ≤ length bytes.old }
    ensures { bytes.new ≡ put bytes.old place (replicate count byte) }
{
    let end = place + count;
    bytes[place..end].fill(byte);
}

// Makes a call on these bytes, where there is room.
fn apply(bytes: &mut Vec<u8>, call: &Call)
    requires fits { end_of call.now ≤ length bytes.old.items }
    requires room { room_of call.now ≤ vec_capacity bytes.old }
    ensures done { bytes.new.items ≡ after call.now bytes.old.items }
    ensures capacity { vec_capacity bytes.old ≤ vec_capacity bytes.new }
{
    match call {
        Call::Write {
            place,
            bytes: written,
        } => overwrite(bytes, *place as usize, written),
        Call::Resize(len) => match bytes.resize(*len as usize, 0) {
            Ok(()) => {}
            Err(_) => unreachable!(),
        },
        Call::Sync => {}
    }
}

// Makes these calls in order, where there is room.
#[tactic(auto, using(crate::proofs::Steps::fold_more))]
fn replay(bytes: &mut Vec<u8>, calls: &[Call])
    requires fits { (k : ℕ) (d : Call) → k < length calls.now
        → end_of (slice_index_or calls.now k d)
        ≤ length (replayed bytes.old.items (take k calls.now)) }
    requires room { (k : ℕ) (d : Call) → k < length calls.now
        → room_of (slice_index_or calls.now k d) ≤ vec_capacity bytes.old }
    ensures { bytes.new.items ≡ replayed bytes.old.items calls.now }
{
    for call in calls {
        apply(bytes, call);
    }
}

// Makes what a crash leaves of a call.
fn tear(bytes: &mut Vec<u8>, call: &Call, pick: Pick) -> Result<(), AllocError>
    requires { end_by pick call.now ≤ length bytes.old.items }
    ensures { OnOk result (bytes.new.items ≡ torn_by pick call.now bytes.old.items) }
{
    let byte = match pick {
        Pick::Nothing => return Ok(()),
        Pick::All => None,
        Pick::Byte(byte) => Some(byte),
    };
    match call {
        Call::Write {
            place,
            bytes: written,
        } => match byte {
            None => overwrite(bytes, *place as usize, written),
            Some(byte) => fill(bytes, *place as usize, written.len(), byte),
        },
        Call::Resize(len) => bytes.resize(*len as usize, byte.unwrap_or(0))?,
        Call::Sync => {}
    }
    Ok(())
}

// Makes what a crash leaves of these calls in order.
#[tactic(auto, using(crate::proofs::Steps::fold_more))]
fn tear_all(bytes: &mut Vec<u8>, calls: &[Call], pick: Pick) -> Result<(), AllocError>
    requires { (k : ℕ) (d : Call) → k < length calls.now
        → end_by pick (slice_index_or calls.now k d)
        ≤ length (torn_replayed pick bytes.old.items (take k calls.now)) }
    ensures { OnOk result (bytes.new.items ≡ torn_replayed pick bytes.old.items calls.now) }
{
    for call in calls {
        tear(bytes, call, pick)?;
    }
    Ok(())
}

// The greatest length that these calls ask for.
fn longest(calls: &[Call]) -> u64
    ensures { (k : ℕ) (d : Call) → k < length calls.now
        → room_of (slice_index_or calls.now k d) ≤ result }
{
    let mut most = 0;
    for call in calls {
        most = most.max(asked(call));
    }
    most
}

// The length that a call asks for.
fn asked(call: &Call) -> u64
    ensures { result ≡ room_of call.now }
{
    match call {
        Call::Resize(len) => *len,
        _ => 0,
    }
}

/// The bytes of a disk at first and now, and each call that has changed it.
#[derive(Debug, Drop)]
pub struct Log {
    first: Vec<u8>,
    current: Vec<u8>,
    // What a read gave at the last sync.
    stable: Vec<u8>,
    calls: Vec<Call>,
    // How many of the calls that sync has taken.
    synced: usize,
    ghost fits: { Fits first.items (reverse calls.items) } by { Fits-prop first.items (reverse calls.items) },
    ghost reads: { current.items ≡ replayed first.items calls.items },
    ghost within: { synced ≤ length calls.items },
    ghost settled: { stable.items ≡ replayed first.items (take synced calls.items) },
    ghost at_sync: { is_settled (reverse (take synced calls.items)) ≡ true },
    ghost pending: { (k : ℕ) (d : Call) → synced ≤ k → k < length calls.items → is_sync (slice_index_or calls.items k d) ≡ false },
}

impl Log {
    /// A disk with these bytes.
    pub fn new(alloc: Global, bytes: Vec<u8>) -> Result<Self, AllocError>
        ensures first { IfOk result (λ log. log.first.items ≡ bytes.items) }
        ensures calls { IfOk result (λ log. log.calls.items ≡ []) }
    {
        let current = bytes.as_slice().to_vec(alloc)?;
        let stable = bytes.as_slice().to_vec(alloc)?;
        Ok(Log {
            first: bytes,
            current,
            stable,
            calls: Vec::new(alloc),
            synced: 0,
        })
    }

    /// What a read gives.
    pub fn current(&self) -> &[u8]
        ensures { result.now ≡ read_of self.now.first.items (reverse self.now.calls.items) }
    {
        &self.current
    }

    /// Writes over the bytes at a place. Without memory nothing changes.
    pub fn write(&mut self, alloc: Global, place: u64, bytes: &[u8]) -> Result<(), AllocError>
        requires { place + length bytes.now ≤ length
            (read_of self.old.first.items (reverse self.old.calls.items)) }
        ensures first { self.new.first ≡ self.old.first }
        ensures noted { OnOk result ((written : Vec ℕ Global) × (written.items ≡ bytes.now)
            × (self.new.calls.items ≡ self.old.calls.items ++ Call.Write place written ∷ [])) }
        ensures err { OnErr result (self.new.calls.items ≡ self.old.calls.items) }
    {
        let written = Vec::from_slice(alloc, bytes)?;
        self.calls.push(Call::Write {
            place,
            bytes: written,
        })?;
        overwrite(&mut self.current, place as usize, bytes);
        Ok(())
    }

    /// Gives the disk a length, with zeros behind the old end. Without memory nothing changes.
    pub fn resize(&mut self, len: u64) -> Result<(), AllocError>
        ensures first { self.new.first ≡ self.old.first }
        ensures noted { OnOk result (self.new.calls.items ≡ self.old.calls.items
            ++ Call.Resize len ∷ []) }
        ensures err { OnErr result (self.new.calls.items ≡ self.old.calls.items) }
    {
        let count = self.calls.len();
        self.calls.push(Call::Resize(len))?;
        match self.current.resize(len as usize, 0) {
            Ok(()) => Ok(()),
            Err(fault) => {
                self.calls.truncate(count);
                Err(fault)
            }
        }
    }

    /// Makes all bytes stable. Without memory nothing changes.
    pub fn sync(&mut self) -> Result<(), AllocError>
        ensures first { self.new.first ≡ self.old.first }
        ensures noted { OnOk result (self.new.calls.items ≡ self.old.calls.items
            ++ Call.Sync ∷ []) }
        ensures err { OnErr result (self.new.calls.items ≡ self.old.calls.items) }
    {
        let room = longest(&self.calls[self.synced..]) as usize;
        self.stable.reserve(room.saturating_sub(self.stable.len()))?;
        self.calls.push(Call::Sync)?;
        replay(&mut self.stable, &self.calls[self.synced..]);
        self.synced = self.calls.len();
        Ok(())
    }

    /// One of the images that a crash may leave now.
    pub fn image(&self, alloc: Global, pick: Pick) -> Result<Vec<u8>, AllocError>
        ensures { IfOk result (λ image. image.items
            ≡ picked pick self.now.first.items (reverse self.now.calls.items)) }
    {
        let mut image = self.stable.as_slice().to_vec(alloc)?;
        tear_all(&mut image, &self.calls[self.synced..], pick)?;
        Ok(image)
    }
}
