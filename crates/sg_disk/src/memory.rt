// A disk in memory.
ghost use Rattle.std.specs.Prelude.{◌≡◌, ◌≢◌, ◌+◌, ◌≤◌, [], length, min, Contains, OnOk, OnErr, IfOk, IsOk, IsErr};
ghost use Rattle.sg_base.specs.Causes.{Rose};
ghost use Rattle.sg_base.specs.Stops.{Lowers, Falls, LowersByOne};
ghost use Rattle.sg_disk.specs.View.{range, Same, Written, Torn, Sized, Resized, Passed, Failed, Only};
ghost use Rattle.sg_disk.specs.Fuse.{stop_of};

use crate::device::{Disk, DiskFailed};
use crate::fuses::{Fate, Fuse, fate_of_listed};
use crate::history::{Log, Pick};
use std::alloc::{AllocError, Global};

/// A disk in memory, which keeps each call that has changed it, so that it knows what a crash may leave. A read, a write
/// and a sync cost what they move.
#[derive(Debug, Drop)]
pub struct MemDisk {
    alloc: Global,
    log: Log,
    fuse: Fuse,
    begun: u64,
    failing: Vec<u64>,
    faults: u64,
}

impl MemDisk {
    ghost use Rattle.sg_disk.specs.Memory.{mem_view, image_of, fuse_of, failing_of, begun_of, IsSameDisk};

    /// A disk with these bytes, all of them stable, whose calls fail for nothing but want of memory.
    pub fn new(alloc: Global, bytes: Vec<u8>) -> Result<Self, AllocError>
        ensures bytes { IfOk result (λ disk. (mem_view disk).bytes ≡ bytes.items) }
        ensures stable { IfOk result (λ disk. Only bytes.items (mem_view disk)) }
        ensures stop { IfOk result (λ disk. fuse_of disk ≡ Fuse.Idle) }
        ensures failing { IfOk result (λ disk. failing_of disk ≡ []) }
        ensures begun { IfOk result (λ disk. begun_of disk ≡ 0) }
        ensures faults { IfOk result (λ disk. (mem_view disk).faults ≡ 0) }
    {
        Ok(MemDisk {
            alloc,
            log: Log::new(alloc, bytes)?,
            fuse: Fuse::Idle,
            begun: 0,
            failing: Vec::new(alloc),
            faults: 0,
        })
    }

    /// What befalls the calls to come.
    pub fn fuse(&self) -> Fuse
        ensures { result ≡ fuse_of self.now }
    {
        self.fuse
    }

    /// Sets what befalls the calls to come.
    pub fn set_fuse(&mut self, fuse: Fuse)
        ensures fuse { fuse_of self.new ≡ fuse }
        ensures stop { (mem_view self.new).stop ≡ stop_of fuse }
        ensures same { IsSameDisk self.old self.new }
        ensures failing { failing_of self.new ≡ failing_of self.old }
        ensures begun { begun_of self.new ≡ begun_of self.old }
    {
        self.fuse = fuse;
    }

    /// Names the calls that fail and change nothing, by their numbers in the disk's life, of which the first is 0. The stop
    /// doesn't tell of them.
    pub fn fail_at(&mut self, calls: Vec<u64>)
        ensures failing { failing_of self.new ≡ calls.items }
        ensures fuse { fuse_of self.new ≡ fuse_of self.old }
        ensures same { IsSameDisk self.old self.new }
        ensures begun { begun_of self.new ≡ begun_of self.old }
    {
        self.failing = calls;
    }

    /// How many calls have begun.
    pub fn begun(&self) -> u64
        ensures { result ≡ begun_of self.now }
    {
        self.begun
    }

    /// How many calls have failed.
    pub fn faults(&self) -> u64
        ensures { result ≡ (mem_view self.now).faults }
    {
        self.faults
    }

    /// What a read gives. It is no call of the disk.
    pub fn bytes(&self) -> &[u8]
        ensures { result.now ≡ (mem_view self.now).bytes }
    {
        self.log.current()
    }

    /// The bytes that a crash leaves now: those of the last sync, with each call since then made as the pick says. It costs one
    /// copy, and one pass over what was written since the last sync.
    pub fn image(&self, pick: Pick) -> Result<Vec<u8>, AllocError>
        ensures picked { IfOk result (λ image. image.items ≡ image_of pick self.now) }
        ensures image { IfOk result (λ image. (mem_view self.now).images image.items) }
    {
        self.log.image(self.alloc, pick)
    }

    // Takes one call.
    fn begin(&mut self) -> Fate
        ensures log { self.new.log ≡ self.old.log }
        ensures faults { self.new.faults ≡ self.old.faults }
        ensures passes { result ≡ Fate.Passes → Lowers 1 (stop_of self.old.fuse)
            (stop_of self.new.fuse) }
        ensures falls { Falls (stop_of self.old.fuse) (stop_of self.new.fuse) }
        ensures by_one { LowersByOne (stop_of self.old.fuse) (stop_of self.new.fuse) }
        ensures idle { self.old.fuse ≡ Fuse.Idle → self.old.failing.items ≡ []
            → result ≡ Fate.Passes }
        ensures faulted { self.old.fuse ≡ Fuse.Fault 0 → result ≡ Fate.Fails }
        ensures listed { Contains self.old.failing.items self.old.begun → result ≢ Fate.Passes }
        ensures begun { self.new.begun ≡ min (self.old.begun + 1) u64.MAX }
        ensures failing { self.new.failing ≡ self.old.failing }
    {
        let number = self.begun;
        self.begun = number.saturating_add(1);
        let fate = self.fuse.burn();
        if self.failing.as_slice().contains(&number) {
            return fate_of_listed(fate);
        }
        fate
    }

    // Counts a call that fails.
    fn fail(&mut self) -> DiskFailed
        ensures log { self.new.log ≡ self.old.log }
        ensures fuse { self.new.fuse ≡ self.old.fuse }
        ensures faults { Rose self.old.faults self.new.faults }
    {
        self.faults = self.faults.saturating_add(1);
        DiskFailed
    }
}

impl Disk for MemDisk {
    ghost use Rattle.sg_disk.specs.Memory.{mem_view, fuse_of, failing_of, log_of};

    ghost view = { mem_view };

    fn len(&mut self) -> Result<u64, DiskFailed>
        ensures ok { IfOk result (λ n. n ≡ (mem_view self.new).size) }
        ensures passed { OnOk result (Passed Same Same (mem_view self.old) (mem_view self.new)) }
        ensures failed { OnErr result (Failed Same (mem_view self.old) (mem_view self.new)) }
        ensures size { (mem_view self.new).size ≡ (mem_view self.old).size }
        ensures passes { fuse_of self.old ≡ Fuse.Idle → failing_of self.old ≡ [] → IsOk result }
    {
        match self.begin() {
            Fate::Passes => Ok(self.log.current().len() as u64),
            Fate::Meets | Fate::Fails => Err(self.fail()),
        }
    }

    fn read(&mut self, place: u64, into: &mut [u8]) -> Result<(), DiskFailed>
        requires { place + length into.old ≤ (mem_view self.old).size }
        ensures ok { OnOk result ((mem_view self.old).told
            → into.new ≡ range (mem_view self.old).bytes place (length into.old)) }
        ensures passed { OnOk result (Passed Same Same (mem_view self.old) (mem_view self.new)) }
        ensures failed { OnErr result (Failed Same (mem_view self.old) (mem_view self.new)) }
        ensures size { (mem_view self.new).size ≡ (mem_view self.old).size }
        ensures passes { fuse_of self.old ≡ Fuse.Idle → failing_of self.old ≡ [] → IsOk result }
    {
        match self.begin() {
            Fate::Passes => {
                let (_, rest) = self.log.current().split_at(place as usize);
                let (found, _) = rest.split_at(into.len());
                into.copy_from_slice(found);
                Ok(())
            }
            Fate::Meets | Fate::Fails => Err(self.fail()),
        }
    }

    fn write_at(&mut self, place: u64, bytes: &[u8]) -> Result<(), DiskFailed>
        requires { place + length bytes.now ≤ (mem_view self.old).size }
        ensures passed { OnOk result (Passed (Written place bytes.now)
            (Torn place (length bytes.now)) (mem_view self.old) (mem_view self.new)) }
        ensures failed { OnErr result (Failed (Torn place (length bytes.now))
            (mem_view self.old) (mem_view self.new)) }
        ensures size { (mem_view self.new).size ≡ (mem_view self.old).size }
        ensures faulted { fuse_of self.old ≡ Fuse.Fault 0
            → IsErr result × (log_of self.new ≡ log_of self.old) }
    {
        let fate = self.begin();
        if fate == Fate::Fails {
            return Err(self.fail());
        }
        if self.log.write(self.alloc, place, bytes).is_err() {
            return Err(self.fail());
        }
        if fate == Fate::Meets {
            return Err(self.fail());
        }
        Ok(())
    }

    fn resize(&mut self, len: u64) -> Result<(), DiskFailed>
        ensures passed { OnOk result (Passed (Sized len) (Resized len)
            (mem_view self.old) (mem_view self.new)) }
        ensures failed { OnErr result (Failed (Resized len)
            (mem_view self.old) (mem_view self.new)) }
        ensures size { OnOk result ((mem_view self.new).size ≡ len) }
        ensures faulted { fuse_of self.old ≡ Fuse.Fault 0
            → IsErr result × (log_of self.new ≡ log_of self.old) }
    {
        let fate = self.begin();
        if fate == Fate::Fails {
            return Err(self.fail());
        }
        if self.log.resize(len).is_err() {
            return Err(self.fail());
        }
        if fate == Fate::Meets {
            return Err(self.fail());
        }
        Ok(())
    }

    fn sync(&mut self) -> Result<(), DiskFailed>
        ensures durable { OnOk result ((mem_view self.old).told
            → Only (mem_view self.old).bytes (mem_view self.new)) }
        ensures passed { OnOk result (Passed Same Same (mem_view self.old) (mem_view self.new)) }
        ensures failed { OnErr result (Failed Same (mem_view self.old) (mem_view self.new)) }
        ensures size { (mem_view self.new).size ≡ (mem_view self.old).size }
        ensures faulted { fuse_of self.old ≡ Fuse.Fault 0
            → IsErr result × (log_of self.new ≡ log_of self.old) }
    {
        match self.begin() {
            Fate::Passes => {}
            Fate::Meets | Fate::Fails => return Err(self.fail()),
        }
        if self.log.sync().is_err() {
            return Err(self.fail());
        }
        Ok(())
    }
}
