//! A store on its disk. Each call is made only where the store lets it be made.

ghost use Rattle.std.specs.Prelude.{◌≡◌};
ghost use Rattle.sg_disk.specs.Contents.{IsRoom};
ghost use Rattle.sg_disk.specs.StandsFor.{disk_len};

use crate::steps::{Ask, File, ROOM, Step, Told, Unmet, listed, many_files};
use sg_base::{Listed, MediaId};
use sg_disk::{Disk, MemDisk};
use sg_store::{Format, NoSpace, Store, SwitchFault, format};
use sg_store_runs::{may_begin, may_bring, may_seal, may_switch};
use std::alloc::Global;
use std::test::Fail;

/// A store, and the disk that it was opened on.
#[derive(Drop)]
pub(crate) struct Bench<D: Disk + Drop> {
    pub(crate) disk: D,
    pub(crate) store: Store,
    ghost whole: { (D.view disk).size ≡ disk_len store.room },
}

/// Makes a new store of a disk.
pub(crate) fn make<D: Disk>(disk: &mut D, room: u64) -> Result<(), Fail>
    requires { IsRoom room }
{
    let new = Format {
        display: 7,
        epoch: 3,
        room,
    };
    format(disk, &new)?;
    Ok(())
}

/// An empty disk in memory.
pub(crate) fn empty(alloc: Global) -> Result<MemDisk, Fail> {
    Ok(MemDisk::new(alloc, Vec::new(alloc))?)
}

/// A disk in memory with a new store.
pub(crate) fn fresh(alloc: Global) -> Result<MemDisk, Fail> {
    let mut disk = empty(alloc)?;
    make(&mut disk, ROOM)?;
    Ok(disk)
}

/// A disk in memory with a new store that has room for the largest file.
pub(crate) fn fresh_and_large(alloc: Global) -> Result<MemDisk, Fail> {
    let mut disk = empty(alloc)?;
    make(&mut disk, 67_174_400)?;
    Ok(disk)
}

// The calls of a store.
impl<D: Disk + Drop> Bench<D> {
    /// Opens the store of a disk.
    pub(crate) fn open(alloc: Global, mut disk: D) -> Result<Self, Fail> {
        let store = Store::open(alloc, &mut disk)?;
        Ok(Bench { disk, store })
    }

    // The answer to the beginning of a file.
    fn begin(&mut self, file: &Listed) -> Result<Option<NoSpace>, Fail> {
        if !may_begin(&self.store, file) {
            return Err(Unmet)?;
        }
        Ok(self.store.stage_begin(file).err())
    }

    // Brings the next bytes of the half staged file.
    fn bring(&mut self, bytes: &[u8]) -> Result<(), Fail> {
        if !may_bring(&self.store, bytes.len()) {
            return Err(Unmet)?;
        }
        self.store.stage_bytes(&mut self.disk, bytes)?;
        Ok(())
    }

    // Seals the half staged file. The answer is the digest of its bytes, if it isn't the listed one.
    fn seal(&mut self) -> Result<Option<[u8; 16]>, Fail> {
        if !may_seal(&self.store) {
            return Err(Unmet)?;
        }
        Ok(self.store.stage_seal().err().map(|fault| fault.found))
    }

    /// The answer to a switch.
    pub(crate) fn switch(
        &mut self,
        text: &[u8],
        files: &[Listed],
    ) -> Result<Option<SwitchFault>, Fail> {
        if !may_switch(&self.store, text, files) {
            return Err(Unmet)?;
        }
        Ok(self.store.switch(&mut self.disk, text, files).err())
    }

    // Reads bytes of a file of the snapshot, from an offset on.
    fn read(&mut self, media: u32, offset: u32, into: &mut [u8]) -> Result<(), Fail> {
        let id = MediaId(media);
        if !self.store.has_bytes(id, offset, into.len()) {
            return Err(Unmet)?;
        }
        self.store.read_file(&mut self.disk, id, offset, into)?;
        Ok(())
    }

    // Reads the manifest of the snapshot, and where it stands.
    fn read_text(&mut self, into: &mut [u8]) -> Result<u64, Fail> {
        if self.store.number() == 0 || into.len() != self.store.manifest_len() as usize {
            return Err(Unmet)?;
        }
        self.store.read_manifest(&mut self.disk, into)?;
        Ok(self.store.manifest_place())
    }
}

// Steps.
impl<D: Disk + Drop> Bench<D> {
    // Begins a file for which there is room.
    fn begin_here(&mut self, file: &Listed) -> Result<(), Fail> {
        if self.begin(file)?.is_some() {
            return Err(Unmet)?;
        }
        Ok(())
    }

    // Stages bytes for a file, in pieces of so many, and seals it. The answer is as that of `seal`.
    fn stage(
        &mut self,
        file: &Listed,
        bytes: &[u8],
        piece: usize,
    ) -> Result<Option<[u8; 16]>, Fail> {
        if piece == 0 {
            return Err(Unmet)?;
        }
        self.begin_here(file)?;
        for next in bytes.chunks(piece) {
            self.bring(next)?;
        }
        self.seal()
    }

    // Stages a file whose bytes have its digest.
    fn stage_file(&mut self, alloc: Global, file: &File, piece: usize) -> Result<(), Fail> {
        let bytes = file.bytes(alloc)?;
        if self
            .stage(&file.listed(alloc)?, bytes.as_slice(), piece)?
            .is_some()
        {
            return Err(Unmet)?;
        }
        Ok(())
    }

    // Brings bytes in pieces of 1, 3, 5, 7 and more, as many as there are.
    fn bring_oddly(&mut self, bytes: &[u8]) -> Result<(), Fail> {
        let mut rest = bytes;
        for piece in 0..8_192 {
            let (next, later) = rest.split_at(rest.len().min(2 * piece + 1));
            self.bring(next)?;
            rest = later;
        }
        Ok(())
    }

    fn stage_oddly(&mut self, alloc: Global, file: &File) -> Result<(), Fail> {
        let bytes = file.bytes(alloc)?;
        self.begin_here(&file.listed(alloc)?)?;
        self.bring_oddly(bytes.as_slice())?;
        if self.seal()?.is_some() {
            return Err(Unmet)?;
        }
        Ok(())
    }

    fn stage_many(&mut self, alloc: Global) -> Result<(), Fail> {
        for file in many_files(alloc)?.as_slice() {
            self.stage_file(alloc, file, 2)?;
        }
        Ok(())
    }

    fn begin_only(&mut self, alloc: Global, file: &File) -> Result<(), Fail> {
        self.begin_here(&file.listed(alloc)?)?;
        self.bring(b"ab")
    }

    // Stages the bytes of another file, whose digest is then found.
    fn mistake(&mut self, alloc: Global, file: &File, other: &File) -> Result<(), Fail> {
        let bytes = other.bytes(alloc)?;
        let found = self.stage(&file.listed(alloc)?, bytes.as_slice(), 65_536)?;
        if found != Some(other.listed(alloc)?.md5) {
            return Err(Unmet)?;
        }
        Ok(())
    }

    fn keep(&mut self, alloc: Global, files: &[File]) -> Result<(), Fail> {
        self.store.stage_keep(listed(alloc, files)?.as_slice());
        Ok(())
    }

    // A switch that passes.
    fn switch_to(&mut self, text: &[u8], files: &[Listed]) -> Result<(), Fail> {
        if self.switch(text, files)?.is_some() {
            return Err(Unmet)?;
        }
        Ok(())
    }

    fn switch_files(&mut self, alloc: Global, text: &[u8], files: &[File]) -> Result<(), Fail> {
        let files = listed(alloc, files)?;
        self.switch_to(text, files.as_slice())
    }

    fn switch_many(&mut self, alloc: Global, count: usize, times: u32) -> Result<(), Fail> {
        let files = listed(alloc, many_files(alloc)?.as_slice())?;
        let text = vec![in alloc; 7; count]?;
        for _ in 0..times {
            self.switch_to(text.as_slice(), files.as_slice())?;
        }
        Ok(())
    }

    // A switch for which no number is left.
    fn spend(&mut self, text: &[u8]) -> Result<(), Fail> {
        if self.switch(text, &[])? != Some(SwitchFault::Spent) {
            return Err(Unmet)?;
        }
        Ok(())
    }

    // Makes a step.
    fn make_step(&mut self, alloc: Global, step: &Step) -> Result<(), Fail> {
        match step {
            Step::Stage(file, piece) => self.stage_file(alloc, file, *piece),
            Step::StageOddly(file) => self.stage_oddly(alloc, file),
            Step::StageMany => self.stage_many(alloc),
            Step::Begin(file) => self.begin_only(alloc, file),
            Step::Mistake(file, other) => self.mistake(alloc, file, other),
            Step::Keep(files) => self.keep(alloc, files),
            Step::Switch(text, files) => self.switch_files(alloc, text, files),
            Step::SwitchMany(count, times) => self.switch_many(alloc, *count, *times),
            Step::Spent(text) => self.spend(text),
        }
    }

    /// Makes steps in their order.
    pub(crate) fn make_steps(&mut self, alloc: Global, steps: &[Step]) -> Result<(), Fail> {
        for step in steps {
            self.make_step(alloc, step)?;
        }
        Ok(())
    }
}

// Answers.
impl<D: Disk + Drop> Bench<D> {
    fn text(&mut self) -> Result<Told, Fail> {
        let mut text = [0; 4];
        let place = self.read_text(&mut text)?;
        Ok(Told::Text(text, place))
    }

    fn bytes(&mut self, media: u32, offset: u32) -> Result<Told, Fail> {
        let mut found = [0; 2];
        self.read(media, offset, &mut found)?;
        Ok(Told::Bytes(found))
    }

    fn room(&mut self, length: u32) -> Result<Told, Fail> {
        let file = Listed {
            media: MediaId(9),
            length,
            md5: [0; 16],
        };
        Ok(Told::Room(self.begin(&file)?))
    }

    fn held(&self, alloc: Global, file: &File) -> Result<Told, Fail> {
        Ok(Told::Held(self.store.held(&file.listed(alloc)?)))
    }

    fn come(&self) -> Told {
        Told::Come(self.store.staged().map(|(_, come)| come))
    }

    fn made(&self) -> Told {
        Told::Made(self.store.display(), self.store.epoch(), self.store.room())
    }

    /// Answers what is asked of the store.
    pub(crate) fn tell(&mut self, alloc: Global, ask: &Ask) -> Result<Told, Fail> {
        match ask {
            Ask::Text => self.text(),
            Ask::Bytes(media, offset) => self.bytes(*media, *offset),
            Ask::Room(length) => self.room(*length),
            Ask::Held(file) => self.held(alloc, file),
            Ask::Come => Ok(self.come()),
            Ask::Made => Ok(self.made()),
        }
    }
}

/// The disk after steps over its store.
pub(crate) fn disk_after<D: Disk + Drop>(
    alloc: Global,
    disk: D,
    steps: &[Step],
) -> Result<D, Fail> {
    let mut bench = Bench::open(alloc, disk)?;
    bench.make_steps(alloc, steps)?;
    let Bench {
        disk,
        store: _store,
    } = bench;
    Ok(disk)
}
