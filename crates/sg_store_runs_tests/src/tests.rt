// Runs over a disk in memory.
ghost use Rattle.std.specs.Prelude.{◌<◌, ◌^◌, length};

use md5::{Digest, Md5};
use sg_base::{Listed, MediaId, Rows};
use sg_disk::{Fuse, MemDisk, Pick};
use sg_store::{Format, NoSpace, Store, format};
use sg_store_runs::{Call, Stop, run};
use std::alloc::{AllocError, Global};
use std::test::Fail;

// A medium as a manifest lists it.
fn listed(media: u32, bytes: &[u8]) -> Listed
    requires { length bytes.now < 2 ^ 32 }
{
    Listed {
        media: MediaId(media),
        length: bytes.len() as u32,
        md5: Md5::digest(bytes),
    }
}

// The bytes of a disk with a new store.
fn fresh(alloc: Global) -> Result<Vec<u8>, Fail> {
    let mut disk = MemDisk::new(alloc, Vec::new(alloc))?;
    format(
        &mut disk,
        &Format {
            display: 7,
            epoch: 3,
            room: 131_072,
        },
    )?;
    Ok(disk.bytes().to_vec(alloc)?)
}

fn bring(alloc: Global, bytes: &[u8]) -> Result<Call, AllocError> {
    Ok(Call::Bytes(Rows::from_vec(bytes.to_vec(alloc)?)))
}

fn keep(alloc: Global, files: &[Listed]) -> Result<Call, AllocError> {
    Ok(Call::Keep(Rows::from_vec(files.to_vec(alloc)?)))
}

fn switch(alloc: Global, manifest: &[u8], files: &[Listed]) -> Result<Call, AllocError> {
    Ok(Call::Switch {
        manifest: Rows::from_vec(manifest.to_vec(alloc)?),
        files: Rows::from_vec(files.to_vec(alloc)?),
    })
}

// Puts the calls that stage a file behind these.
fn stage(
    alloc: Global,
    calls: &mut Vec<Call>,
    file: Listed,
    bytes: &[u8],
) -> Result<(), AllocError> {
    calls.push(Call::Begin(file))?;
    calls.push(bring(alloc, bytes)?)?;
    calls.push(Call::Seal)?;
    Ok(())
}

// Puts the calls that begin a file and give it up behind these.
fn give_up(
    alloc: Global,
    calls: &mut Vec<Call>,
    file: Listed,
    bytes: &[u8],
) -> Result<(), AllocError> {
    calls.push(Call::Begin(file))?;
    calls.push(bring(alloc, bytes)?)?;
    calls.push(Call::Open)?;
    Ok(())
}

// A file, a switch, a part of a file that an opening gives up, the whole of it, and a switch.
fn two_switches(alloc: Global) -> Result<Vec<Call>, AllocError> {
    let first = listed(1, b"abc");
    let second = listed(2, b"defg");
    let mut calls = Vec::new(alloc);
    stage(alloc, &mut calls, first, b"abc")?;
    calls.push(switch(alloc, b"one", &[first])?)?;
    give_up(alloc, &mut calls, second, b"de")?;
    stage(alloc, &mut calls, second, b"defg")?;
    calls.push(keep(alloc, &[first, second])?)?;
    calls.push(switch(alloc, b"two", &[first, second])?)?;
    Ok(calls)
}

// Opens the store on a disk and makes the calls.
fn opened_run(alloc: Global, disk: &mut MemDisk, calls: &[Call]) -> Result<(), Stop> {
    let mut store = Store::open(alloc, disk)?;
    run(alloc, &mut store, disk, calls)
}

// The switch number that an opening of these bytes finds.
fn number_of(alloc: Global, bytes: Vec<u8>) -> Result<u32, Fail> {
    let mut disk = MemDisk::new(alloc, bytes)?;
    let store = Store::open(alloc, &mut disk)?;
    Ok(store.number())
}

const PICKS: [Pick; 5] = [
    Pick::Nothing,
    Pick::All,
    Pick::Byte(0),
    Pick::Byte(1),
    Pick::Byte(255),
];

// The numbers that openings find where a crash meets the call behind so many of a run, by the picks; and whether the run
// passed.
fn numbers_after(
    alloc: Global,
    bytes: Vec<u8>,
    calls: &[Call],
    crash: u64,
) -> Result<(Vec<u32>, bool), Fail> {
    let mut disk = MemDisk::new(alloc, bytes)?;
    disk.set_fuse(Fuse::Crash(crash));
    let passed = opened_run(alloc, &mut disk, calls).is_ok();
    let mut numbers = Vec::new(alloc);
    for pick in &PICKS {
        numbers.push(number_of(alloc, disk.image(*pick)?)?)?;
    }
    Ok((numbers, passed))
}

// Whether no number is below the one before it at the same place.
fn never_fall(before: &[u32], now: &[u32]) -> bool {
    before.iter().zip(now).all(|(old, new)| *old <= *new)
}

#[test]
fn a_crash_at_any_call_leaves_some_first_calls(rt: HostRuntime) -> Result<(), Fail> {
    let alloc = rt.alloc();
    let bytes = fresh(alloc)?;
    let calls = two_switches(alloc)?;
    let mut before = vec![in alloc; 0u32; 5]?;
    for crash in 0..64 {
        let (now, passed) = numbers_after(alloc, bytes.clone()?, calls.as_slice(), crash)?;
        assert!(rt; never_fall(before.as_slice(), now.as_slice()), "{crash}");
        if passed {
            assert_eq!(rt; now.as_slice(), [2, 2, 2, 2, 2].as_slice());
            return Ok(());
        }
        before = now;
    }
    assert!(rt; false, "the run never passed");
    Ok(())
}

// Whether a run over a new store ends as unlawful.
fn is_unlawful(alloc: Global, bytes: &[u8], calls: &[Call]) -> Result<bool, Fail> {
    let mut disk = MemDisk::new(alloc, bytes.to_vec(alloc)?)?;
    Ok(opened_run(alloc, &mut disk, calls) == Err(Stop::Unlawful))
}

#[test]
fn an_unlawful_order_is_stopped(rt: HostRuntime) -> Result<(), Fail> {
    let alloc = rt.alloc();
    let disk = fresh(alloc)?;
    let bytes = disk.as_slice();
    let file = listed(1, b"abc");
    assert!(rt; is_unlawful(alloc, bytes, &[Call::Seal])?);
    assert!(rt; is_unlawful(alloc, bytes, &[Call::Begin(file), Call::Seal])?);
    assert!(rt; is_unlawful(alloc, bytes, &[Call::Begin(file), Call::Begin(file)])?);
    let more = bring(alloc, b"abcd")?;
    assert!(rt; is_unlawful(alloc, bytes, &[Call::Begin(file), more])?);
    let unheld = switch(alloc, b"t", &[file])?;
    assert!(rt; is_unlawful(alloc, bytes, &[unheld])?);
    Ok(())
}

#[test]
fn other_bytes_than_the_listed_ones_stop_a_run(rt: HostRuntime) -> Result<(), Fail> {
    let alloc = rt.alloc();
    let mut disk = MemDisk::new(alloc, fresh(alloc)?)?;
    let mut calls = Vec::new(alloc);
    stage(alloc, &mut calls, listed(1, b"abc"), b"abd")?;
    let stop = opened_run(alloc, &mut disk, calls.as_slice()).err();
    let differs = match stop {
        Some(Stop::DigestDiffers(fault)) => fault.found == listed(1, b"abd").md5,
        _ => false,
    };
    assert!(rt; differs);
    Ok(())
}

#[test]
fn a_stop_says_why_it_came(rt: HostRuntime) -> Result<(), Fail> {
    let no_space = Stop::NoSpace(NoSpace {
        need: 2,
        largest: 1,
    });
    let text = format!(in rt.alloc(); "{no_space}")?;
    assert_eq!(rt;
        text.as_str(),
        "2 bytes are needed, and the longest gap has 1"
    );
    let text = format!(in rt.alloc(); "{}", Stop::Damaged { place: 4, found: 9 })?;
    assert_eq!(rt; text.as_str(), "the store is damaged at 4: 9");
    let text = format!(in rt.alloc(); "{}", Stop::Unlawful)?;
    assert_eq!(rt; text.as_str(), "the call isn't lawful");
    Ok(())
}
