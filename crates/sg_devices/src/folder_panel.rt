// A panel over a folder, from which a viewer shows one file for each region. It is the trusted edge: no contract can say
// what a folder holds.
ghost use Rattle.std.specs.Prelude.{◌≡◌, ◌+◌, ◌≤◌, None, length, OnOk};
ghost use Rattle.sg_base.specs.Causes.{HasCause, Rose};
ghost use Rattle.sg_devices.specs.Panels.{HasRoom, IsWhole, cleared, opened, extended, closed};

use crate::panel::{Begun, Panel, PanelFailed, grown};
use std::alloc::{AllocError, Global};
use std::fs::{File, Files};
use std::io::{ErrorKind, Write};
use std::{fs, io};

/// A panel that shows the medium of region 7 as the file `region-7` of its folder. A medium is written beside, as
/// `.region-7.new`, and takes its name when all of it is there, so a viewer never sees a part of one. Clearing removes all
/// files of such names, also those of an earlier run.
#[derive(Drop)]
pub struct FolderPanel<R: Files> {
    rt: R,
    folder: String,
    begun: Option<Begun>,
    // The file beside, while its medium comes.
    file: Option<R::File>,
    faults: u64,
}

impl<R: Files + Alloc<A = Global> + Clone + Drop> FolderPanel<R> {
    ghost use Rattle.sg_devices.specs.Folder.{folder_view};

    /// A panel over this folder, which is there. It touches nothing before the first call.
    pub fn new(rt: R, folder: String) -> Self
        ensures begun { (folder_view result).begun ≡ None }
        ensures faults { (folder_view result).faults ≡ 0 }
    {
        FolderPanel {
            rt,
            folder,
            begun: None,
            file: None,
            faults: 0,
        }
    }

    /// How often it has failed.
    pub fn faults(&self) -> u64
        ensures { result ≡ (folder_view self.now).faults }
    {
        self.faults
    }

    // Counts a call that failed.
    fn fail(&mut self) -> PanelFailed
        ensures rose { Rose self.old.faults self.new.faults }
        ensures later { self.old.faults ≤ self.new.faults }
    {
        self.faults = self.faults.saturating_add(1);
        PanelFailed
    }

    // Removes the files of all regions.
    fn wipe(&self) -> io::Result<()> {
        for entry in fs::read_dir(&self.rt, self.folder.as_str())? {
            match entry {
                Ok(entry) => {
                    if is_ours(entry.file_name()) {
                        fs::remove_file(&self.rt, entry.path())?;
                    }
                }
                // A name that is no text is none of ours.
                Err(error) if error.kind() == ErrorKind::InvalidFilename => {}
                Err(error) => return Err(error),
            }
        }
        Ok(())
    }

    // The file beside that of a region, empty.
    fn make(&self, region: u32) -> io::Result<R::File> {
        let path = beside(self.rt.alloc(), self.folder.as_str(), region)?;
        File::create(&self.rt, path.as_str())
    }

    // Gives the file beside its name.
    fn show(&self, region: u32) -> io::Result<()> {
        let alloc = self.rt.alloc();
        let folder = self.folder.as_str();
        let from = beside(alloc, folder, region)?;
        let to = format!(in alloc; "{folder}/region-{region}")?;
        fs::rename(&self.rt, from.as_str(), to.as_str())
    }
}

// The path at which the medium of a region comes.
fn beside(alloc: Global, folder: &str, region: u32) -> Result<String, AllocError> {
    format!(in alloc; "{folder}/.region-{region}.new")
}

// Whether a file of this name is that of a region, or the one beside it.
fn is_ours(name: &str) -> bool {
    let beside = match name.strip_prefix(".region-") {
        Some(rest) => rest.strip_suffix(".new"),
        None => None,
    };
    is_number(name.strip_prefix("region-")) || is_number(beside)
}

fn is_number(text: Option<&str>) -> bool {
    match text {
        Some(text) => !text.is_empty() && text.bytes().all(|byte| byte.is_ascii_digit()),
        None => false,
    }
}

fn write_whole<W: Write>(file: &mut Option<W>, bytes: &[u8]) -> io::Result<()> {
    match file {
        Some(file) => file.write_all(bytes),
        None => Err(ErrorKind::NotFound.into()),
    }
}

impl<R: Files + Alloc<A = Global> + Clone + Drop> Panel for FolderPanel<R> {
    ghost use Rattle.sg_devices.specs.Folder.{folder_view};

    ghost seen = { folder_view };

    fn clear(&mut self) -> Result<(), PanelFailed> {
        self.begun = None;
        self.file = None;
        match self.wipe() {
            Ok(()) => Ok(()),
            Err(_) => Err(self.fail()),
        }
    }

    fn begin(&mut self, region: u32, media: u32, length: u32) -> Result<(), PanelFailed> {
        match self.make(region) {
            Ok(file) => {
                self.file = Some(file);
                self.begun = Some(Begun {
                    region,
                    media,
                    length,
                    got: 0,
                });
                Ok(())
            }
            Err(_) => Err(self.fail()),
        }
    }

    fn bytes(&mut self, bytes: &[u8]) -> Result<(), PanelFailed> {
        match write_whole(&mut self.file, bytes) {
            Ok(()) => {
                self.begun = grown(self.begun, bytes.len());
                Ok(())
            }
            Err(_) => Err(self.fail()),
        }
    }

    fn end(&mut self) -> Result<(), PanelFailed> {
        self.file = None;
        let shown = match self.begun {
            Some(begun) => self.show(begun.region),
            None => Err(ErrorKind::NotFound.into()),
        };
        match shown {
            Ok(()) => {
                self.begun = None;
                Ok(())
            }
            Err(_) => Err(self.fail()),
        }
    }
}
