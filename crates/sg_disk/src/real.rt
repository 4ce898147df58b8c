// A disk over a file of the operating system. It is the trusted edge: no contract can say what a file holds.
ghost use Rattle.std.specs.Prelude.{◌≡◌, ◌+◌, ◌≤◌, length, true, OnOk, OnErr, IfOk, IsErr};
ghost use Rattle.sg_disk.specs.View.{range, Same, Written, Torn, Sized, Resized, Passed, Failed, Only};
ghost use Rattle.sg_base.specs.Causes.{Rose};

use crate::device::{Disk, DiskFailed};
use std::fs::{File, OpenFile, OpenOptions};
use std::io;
use std::os::unix::fs::FileExt;
use std::path::Path;
use std::rt::Files;

/// A disk over the file at a path. The first call opens the file, and makes it where it isn't there. A call that the
/// system refuses, or does in part, is a counted fault. Each read and each write is one call of the system.
///
/// After a sync that failed every call fails: what is stable isn't known any more, and only a machine that was started anew
/// reads it back.
#[derive(Drop)]
pub struct FileDisk<R: Files<File = File>> {
    rt: R,
    path: String,
    file: Option<File>,
    // That of the last `len` or `resize` that passed, or 0.
    size: u64,
    // Whether the file's length and its entry in the folder are stable.
    settled: bool,
    // Whether a sync has failed. The system may have dropped what it couldn't write, and would let the next sync pass.
    broken: bool,
    faults: u64,
}

impl<R: Files<File = File>> FileDisk<R> {
    ghost use Rattle.sg_disk.specs.Blind.{file_view};

    /// A disk over the file at this path. It touches nothing before the first call.
    pub fn new(rt: R, path: String) -> Self
        ensures size { (file_view result).size ≡ 0 }
        ensures faults { (file_view result).faults ≡ 0 }
    {
        FileDisk {
            rt,
            path,
            file: None,
            size: 0,
            settled: false,
            broken: false,
            faults: 0,
        }
    }

    /// How many calls have failed.
    pub fn faults(&self) -> u64
        ensures { result ≡ (file_view self.now).faults }
    {
        self.faults
    }

    // Counts a call that failed.
    fn fail(&mut self) -> DiskFailed
        ensures size { self.new.size ≡ self.old.size }
        ensures faults { Rose self.old.faults self.new.faults }
        ensures broken { self.new.broken ≡ self.old.broken }
    {
        self.faults = self.faults.saturating_add(1);
        DiskFailed
    }

    // Opens the file, where no call has yet. After a failed sync it is refused.
    fn open(&mut self) -> io::Result<()>
        ensures size { self.new.size ≡ self.old.size }
        ensures faults { self.new.faults ≡ self.old.faults }
        ensures broken { self.old.broken ≡ true → IsErr result × (self.new.broken ≡ true) }
    {
        if self.broken {
            return Err(io::ErrorKind::Other.into());
        }
        if self.file.is_none() {
            let mut how = OpenOptions::new();
            how.read(true).write(true).create(true);
            self.file = Some(how.open(&self.rt, self.path.as_str())?);
        }
        Ok(())
    }

    fn measure(&mut self) -> io::Result<u64>
        ensures size { self.new.size ≡ self.old.size }
        ensures faults { self.new.faults ≡ self.old.faults }
        ensures broken { self.old.broken ≡ true → IsErr result × (self.new.broken ≡ true) }
    {
        self.open()?;
        Ok(opened(&self.file)?.metadata()?.len())
    }

    fn read_whole(&mut self, place: u64, into: &mut [u8]) -> io::Result<()>
        ensures size { self.new.size ≡ self.old.size }
        ensures faults { self.new.faults ≡ self.old.faults }
        ensures broken { self.old.broken ≡ true → IsErr result × (self.new.broken ≡ true) }
    {
        self.open()?;
        let wanted = into.len();
        let read = opened(&self.file)?.read_at(into, place)?;
        whole(read, wanted)
    }

    fn write_whole(&mut self, place: u64, bytes: &[u8]) -> io::Result<()>
        ensures size { self.new.size ≡ self.old.size }
        ensures faults { self.new.faults ≡ self.old.faults }
        ensures broken { self.old.broken ≡ true → IsErr result × (self.new.broken ≡ true) }
    {
        self.open()?;
        let written = opened(&self.file)?.write_at(bytes, place)?;
        whole(written, bytes.len())
    }

    fn set_len(&mut self, len: u64) -> io::Result<()>
        ensures size { self.new.size ≡ self.old.size }
        ensures faults { self.new.faults ≡ self.old.faults }
        ensures broken { self.old.broken ≡ true → IsErr result × (self.new.broken ≡ true) }
    {
        self.open()?;
        self.settled = false;
        opened(&self.file)?.set_len(len)
    }

    // Makes the data stable, and behind a change of the length or an opening also the length and the folder's entry.
    fn settle(&mut self) -> io::Result<()>
        ensures size { self.new.size ≡ self.old.size }
        ensures faults { self.new.faults ≡ self.old.faults }
        ensures broken { self.old.broken ≡ true → IsErr result × (self.new.broken ≡ true) }
    {
        self.open()?;
        if self.settled {
            return opened(&self.file)?.sync_data();
        }
        opened(&self.file)?.sync_all()?;
        File::open(&self.rt, folder_of(self.path.as_str()))?.sync_all()?;
        self.settled = true;
        Ok(())
    }
}

fn opened(file: &Option<File>) -> io::Result<&File> {
    file.as_ref().ok_or(io::ErrorKind::NotFound.into())
}

// Refuses a read or a write that was done in part.
fn whole(done: usize, wanted: usize) -> io::Result<()>
    ensures { OnOk result (done ≡ wanted) }
{
    if done != wanted {
        return Err(io::ErrorKind::UnexpectedEof.into());
    }
    Ok(())
}

// The folder that a file's entry stands in.
fn folder_of(path: &str) -> &str {
    match Path::new(path).parent() {
        None => "/",
        Some(folder) => {
            let folder = folder.as_str();
            if folder.is_empty() { "." } else { folder }
        }
    }
}

impl<R: Files<File = File>> Disk for FileDisk<R> {
    ghost use Rattle.sg_disk.specs.Blind.{file_view, has_failed_sync};

    ghost view = { file_view };

    fn len(&mut self) -> Result<u64, DiskFailed>
        ensures ok { IfOk result (λ n. n ≡ (file_view self.new).size) }
        ensures passed { OnOk result (Passed Same Same (file_view self.old) (file_view self.new)) }
        ensures failed { OnErr result (Failed Same (file_view self.old) (file_view self.new)) }
        ensures size { OnErr result ((file_view self.new).size ≡ (file_view self.old).size) }
        ensures broken { has_failed_sync self.old → IsErr result × has_failed_sync self.new }
    {
        match self.measure() {
            Ok(len) => {
                self.size = len;
                Ok(len)
            }
            Err(_) => Err(self.fail()),
        }
    }

    fn read(&mut self, place: u64, into: &mut [u8]) -> Result<(), DiskFailed>
        requires { place + length into.old ≤ (file_view self.old).size }
        ensures ok { OnOk result ((file_view self.old).told
            → into.new ≡ range (file_view self.old).bytes place (length into.old)) }
        ensures passed { OnOk result (Passed Same Same (file_view self.old) (file_view self.new)) }
        ensures failed { OnErr result (Failed Same (file_view self.old) (file_view self.new)) }
        ensures size { (file_view self.new).size ≡ (file_view self.old).size }
        ensures broken { has_failed_sync self.old → IsErr result × has_failed_sync self.new }
    {
        match self.read_whole(place, into) {
            Ok(()) => Ok(()),
            Err(_) => Err(self.fail()),
        }
    }

    fn write_at(&mut self, place: u64, bytes: &[u8]) -> Result<(), DiskFailed>
        requires { place + length bytes.now ≤ (file_view self.old).size }
        ensures passed { OnOk result (Passed (Written place bytes.now)
            (Torn place (length bytes.now)) (file_view self.old) (file_view self.new)) }
        ensures failed { OnErr result (Failed (Torn place (length bytes.now))
            (file_view self.old) (file_view self.new)) }
        ensures size { (file_view self.new).size ≡ (file_view self.old).size }
        ensures broken { has_failed_sync self.old → IsErr result × has_failed_sync self.new }
    {
        match self.write_whole(place, bytes) {
            Ok(()) => Ok(()),
            Err(_) => Err(self.fail()),
        }
    }

    fn resize(&mut self, len: u64) -> Result<(), DiskFailed>
        ensures passed { OnOk result (Passed (Sized len) (Resized len)
            (file_view self.old) (file_view self.new)) }
        ensures failed { OnErr result (Failed (Resized len)
            (file_view self.old) (file_view self.new)) }
        ensures size { OnOk result ((file_view self.new).size ≡ len) }
        ensures broken { has_failed_sync self.old → IsErr result × has_failed_sync self.new }
    {
        match self.set_len(len) {
            Ok(()) => {
                self.size = len;
                Ok(())
            }
            Err(_) => Err(self.fail()),
        }
    }

    fn sync(&mut self) -> Result<(), DiskFailed>
        ensures durable { OnOk result ((file_view self.old).told
            → Only (file_view self.old).bytes (file_view self.new)) }
        ensures passed { OnOk result (Passed Same Same (file_view self.old) (file_view self.new)) }
        ensures failed { OnErr result (Failed Same (file_view self.old) (file_view self.new)) }
        ensures size { (file_view self.new).size ≡ (file_view self.old).size }
        ensures broken { has_failed_sync self.old → IsErr result × has_failed_sync self.new }
        ensures breaks { OnErr result (has_failed_sync self.new) }
    {
        match self.settle() {
            Ok(()) => Ok(()),
            Err(_) => {
                self.broken = true;
                Err(self.fail())
            }
        }
    }
}
