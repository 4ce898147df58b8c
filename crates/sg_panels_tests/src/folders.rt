// The bytes that come into folders: those of the disk, also where a medium has more than one piece.
use crate::shelf::{disk, paint};
use sg_base::MediaId;
use sg_devices::{FolderPanel, Screen};
use sg_outside::MemSink;
use std::fs;
use std::test::Fail;

const FOLDERS: [&str; 2] = ["sg_panels_first", "sg_panels_second"];

#[test]
fn each_folder_gets_the_media_of_the_picture(rt: HostRuntime) -> Result<(), Fail> {
    let alloc = rt.alloc();
    let mut disk = disk(alloc)?;
    let mut panels = panels(&rt)?;
    let mut spares = Vec::new(alloc);
    let picture = [(1, MediaId(1)), (7, MediaId(2))];
    let mut out = MemSink::new(alloc);
    let painted = paint(
        alloc,
        &mut panels,
        &mut spares,
        &picture,
        &mut disk,
        &mut out,
    )?;
    assert_eq!(rt; painted, Ok(()));
    assert_eq!(rt; out.bytes(), b"".as_slice());
    for folder in FOLDERS {
        has_media(&rt, folder)?;
    }
    Ok(())
}

// A live screen for each folder.
fn panels(rt: &HostRuntime) -> Result<Vec<Screen>, Fail> {
    let mut panels = Vec::new(rt.alloc());
    for folder in FOLDERS {
        let _ = fs::remove_dir_all(rt, folder);
        fs::create_dir(rt, folder)?;
        panels.push(screen(rt, folder)?)?;
    }
    Ok(panels)
}

fn screen(rt: &HostRuntime, folder: &str) -> Result<Screen, Fail> {
    let alloc = rt.alloc();
    let panel = FolderPanel::new(rt.clone()?, String::from_str(alloc, folder)?);
    Ok(Screen {
        panel: Box::new(alloc, panel)?,
        live: true,
    })
}

fn has_media(rt: &HostRuntime, folder: &str) -> Result<(), Fail> {
    let first = region(rt, folder, 1)?;
    let second = region(rt, folder, 7)?;
    let same = second
        .iter()
        .enumerate()
        .all(|(i, byte)| usize::from(*byte) == (16 + i % 251) % 251);
    if first.as_slice() != [1, 2, 3].as_slice() || second.len() != 70_000 || !same {
        return Err(Fail::new("other bytes"));
    }
    fs::remove_dir_all(rt, folder)?;
    Ok(())
}

fn region(rt: &HostRuntime, folder: &str, region: u32) -> Result<Vec<u8>, Fail> {
    let path = format!(in rt.alloc(); "{folder}/region-{region}")?;
    Ok(fs::read(rt, path.as_str())?)
}
