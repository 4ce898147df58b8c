// Panels: what is shown after calls that pass and after one that fails, and the files of a folder.
use sg_devices::{FolderPanel, MemPanel, Panel, PanelFailed, Screen};
use std::alloc::AllocError;
use std::fs;
use std::test::Fail;

/// Shows a picture of two regions, the second in two pieces. Says whether each call passed.
fn show(panel: &mut MemPanel) -> Result<(), PanelFailed> {
    panel.clear()?;
    panel.begin(1, 10, 3)?;
    panel.bytes(b"one")?;
    panel.end()?;
    panel.begin(2, 20, 5)?;
    panel.bytes(b"tw")?;
    panel.bytes(b"o!!")?;
    panel.end()
}

/// Whether both media of the picture are shown, and nothing else is.
fn shows_both(panel: &MemPanel) -> bool {
    match panel.shown() {
        [first, second] => {
            (first.region, first.media, first.bytes.as_slice()) == (1, 10, b"one".as_slice())
                && (second.region, second.media, second.bytes.as_slice())
                    == (2, 20, b"two!!".as_slice())
        }
        _ => false,
    }
}

#[test]
fn a_panel_shows_what_was_given(rt: HostRuntime) -> Result<(), Fail> {
    let mut panel = MemPanel::new(rt.alloc());
    show(&mut panel)?;
    assert!(rt; shows_both(&panel));
    assert!(rt; panel.begun().is_none());
    // The second picture takes the place of the first one.
    show(&mut panel)?;
    assert!(rt; shows_both(&panel));
    panel.clear()?;
    assert!(rt; panel.shown().is_empty());
    assert_eq!(rt; panel.faults(), 0);
    Ok(())
}

#[test]
fn each_call_of_a_panel_failing(rt: HostRuntime) -> Result<(), Fail> {
    let alloc = rt.alloc();
    for call in 1..9 {
        let mut panel = MemPanel::new(alloc).with_failing(vec![in alloc; call]?);
        assert_eq!(rt; show(&mut panel), Err(PanelFailed), "call {call} fails");
        assert_eq!(rt; panel.faults(), 1, "call {call} fails");
        // Once it is cleared, it shows all again.
        show(&mut panel)?;
        assert!(rt; shows_both(&panel), "call {call} fails");
    }
    assert_eq!(rt; PanelFailed.to_string(alloc)?.as_str(), "the panel failed");
    Ok(())
}

/// Clears a screen and shows one medium on it.
fn show_one(screen: &mut Screen, region: u32, media: u32, bytes: &[u8]) -> Result<(), PanelFailed> {
    screen.panel.clear()?;
    let Ok(length) = u32::try_from(bytes.len()) else {
        return Err(PanelFailed);
    };
    screen.panel.begin(region, media, length)?;
    screen.panel.bytes(bytes)?;
    screen.panel.end()
}

#[test]
fn a_screen_takes_any_panel(rt: HostRuntime) -> Result<(), Fail> {
    let alloc = rt.alloc();
    let mut screen = Screen {
        panel: Box::new(alloc, MemPanel::new(alloc).with_failing(vec![in alloc; 6]?))?,
        live: true,
    };
    assert_eq!(rt; show_one(&mut screen, 1, 10, b"one"), Ok(()));
    assert_eq!(rt; show_one(&mut screen, 1, 10, b"two"), Err(PanelFailed));
    assert!(rt; screen.live);
    Ok(())
}

const FOLDER: &str = "sg_devices_panel";

/// Whether the folder has a file of each of the names in the first list, and of none in the second.
fn has(rt: &HostRuntime, there: &[&str], gone: &[&str]) -> Result<bool, Fail> {
    for name in there {
        if !is_file(rt, name)? {
            return Ok(false);
        }
    }
    for name in gone {
        if is_file(rt, name)? {
            return Ok(false);
        }
    }
    Ok(true)
}

fn is_file(rt: &HostRuntime, name: &str) -> Result<bool, AllocError> {
    let path = format!(in rt.alloc(); "{FOLDER}/{name}")?;
    Ok(fs::metadata(rt, path.as_str()).is_ok())
}

/// The folder, with what an earlier run left in it, and files that are none of ours.
fn left_behind(rt: &HostRuntime) -> Result<(), Fail> {
    let _ = fs::remove_dir_all(rt, FOLDER);
    fs::create_dir(rt, FOLDER)?;
    for name in ["region-9", ".region-9.new", "region-x", "region-", "notes"] {
        let path = format!(in rt.alloc(); "{FOLDER}/{name}")?;
        fs::write(rt, path.as_str(), b"old".as_slice())?;
    }
    Ok(())
}

#[test]
fn a_folder_has_one_file_for_each_region(rt: HostRuntime) -> Result<(), Fail> {
    left_behind(&rt)?;
    let mut panel = FolderPanel::new(rt.clone()?, String::from_str(rt.alloc(), FOLDER)?);
    panel.clear()?;
    let kept = ["region-x", "region-", "notes"];
    assert!(rt; has(&rt, &kept, &["region-9", ".region-9.new"])?);
    panel.begin(4_294_967_295, 10, 6)?;
    panel.bytes(b"thr")?;
    let (whole, beside) = ("region-4294967295", ".region-4294967295.new");
    assert!(rt; has(&rt, &[beside], &[whole])?);
    panel.bytes(b"ee!")?;
    panel.end()?;
    assert!(rt; has(&rt, &[whole], &[beside])?);
    let shown = fs::read(&rt, "sg_devices_panel/region-4294967295")?;
    assert_eq!(rt; shown.as_slice(), b"three!".as_slice());
    panel.clear()?;
    assert!(rt; has(&rt, &kept, &[whole, beside])?);
    assert_eq!(rt; panel.faults(), 0);
    fs::remove_dir_all(&rt, FOLDER)?;
    Ok(())
}

#[test]
fn a_folder_that_is_not_there_is_a_fault(rt: HostRuntime) -> Result<(), Fail> {
    let folder = String::from_str(rt.alloc(), "sg_devices_nowhere")?;
    let mut panel = FolderPanel::new(rt.clone()?, folder);
    assert_eq!(rt; panel.begin(1, 10, 1), Err(PanelFailed));
    assert_eq!(rt; panel.clear(), Err(PanelFailed));
    assert_eq!(rt; panel.faults(), 2);
    Ok(())
}
