ghost use Rattle.std.specs.Prelude.{◌<◌, ◌≤◌};

use sg_base::{Moment, PlayBody};
use sg_disk::{Disk, FileDisk, Fuse, MemDisk, Pick};
use sg_journal::{AppendFault, Batch, Journal, OpenFault, append_all};
use std::alloc::{AllocError, Global};
use std::fs;
use std::test::Fail;

// The disk of a fresh store with the smallest data area, which has this journal's area.
const LEN: usize = 6_402_048;

const EPOCH: u32 = 5;

// Where the journal begins.
const JOURNAL: usize = 2_142_208;

// So many zeros.
fn zeros(alloc: Global, len: usize) -> Result<Vec<u8>, AllocError> {
    vec![in alloc; 0u8; len]
}

fn fresh(alloc: Global) -> Result<MemDisk, AllocError> {
    MemDisk::new(alloc, zeros(alloc, LEN)?)
}

// The play with a number: its event is that number, so that it is known again.
fn play(event: u32) -> PlayBody
    ensures rises { result.from < result.to }
    ensures layout { 1 ≤ result.layout }
{
    PlayBody {
        event,
        layout: 7,
        from: Moment::new(100).unwrap(),
        to: Moment::new(160).unwrap(),
    }
}

fn record(journal: &mut Journal, disk: &mut MemDisk, event: u32) -> Result<u32, AppendFault> {
    if disk.bytes().len() < LEN {
        return Err(AppendFault::Disk);
    }
    journal.append(disk, &play(event))
}

fn open(alloc: Global, disk: &mut MemDisk) -> Result<Journal, OpenFault> {
    if disk.bytes().len() < LEN {
        return Err(OpenFault::Disk);
    }
    Journal::open(alloc, disk, EPOCH)
}

fn acknowledge(journal: &mut Journal, next: u32) {
    if journal.first() <= next && next <= journal.next() {
        journal.acknowledged(next);
    }
}

#[test]
fn acknowledged_plays_leave_the_batch(rt: HostRuntime) -> Result<(), Fail> {
    let mut disk = fresh(rt.alloc())?;
    let mut journal = open(rt.alloc(), &mut disk)?;
    let mut batch = Batch::new();
    assert_eq!(rt; batch.first(), 1);
    assert!(rt; batch.plays().is_empty());
    journal.batch(64, &mut batch);
    assert!(rt; batch.plays().is_empty(), "no play yet");
    let opened = disk.begun();
    for number in 1..4 {
        assert_eq!(rt; record(&mut journal, &mut disk, number), Ok(number));
    }
    assert_eq!(rt;
        disk.begun().saturating_sub(opened),
        12,
        "four calls for a play"
    );
    acknowledge(&mut journal, 3);
    journal.batch(64, &mut batch);
    assert_eq!(rt; batch.first(), 3);
    assert_eq!(rt; batch.plays(), [play(3)].as_slice());

    let mut again = open(rt.alloc(), &mut disk)?;
    assert_eq!(rt; (again.first(), again.next()), (1, 4));
    again.batch(64, &mut batch);
    assert_eq!(rt; batch.first(), 1);
    assert_eq!(rt; batch.plays(), [play(1), play(2), play(3)].as_slice());
    again.batch(2, &mut batch);
    assert_eq!(rt; batch.plays(), [play(1), play(2)].as_slice());
    Ok(())
}

#[test]
fn a_full_journal_waits_for_an_acknowledgement(rt: HostRuntime) -> Result<(), Fail> {
    let mut disk = fresh(rt.alloc())?;
    let mut journal = open(rt.alloc(), &mut disk)?;
    for number in 1..65_537 {
        assert_eq!(rt; record(&mut journal, &mut disk, number), Ok(number));
    }
    let begun = disk.begun();
    let full = AppendFault::Full {
        first: 1,
        next: 65_537,
    };
    assert_eq!(rt; record(&mut journal, &mut disk, 65_537), Err(full));
    assert_eq!(rt; disk.begun(), begun, "no call");
    acknowledge(&mut journal, 2);
    assert_eq!(rt; record(&mut journal, &mut disk, 65_537), Ok(65_537));
    assert_eq!(rt; disk.begun().saturating_sub(begun), 6, "a record is closed");
    let again = open(rt.alloc(), &mut disk)?;
    assert_eq!(rt; (again.first(), again.next()), (2, 65_538));
    Ok(())
}

// An open record in a disk's bytes: its index, and number, layout, from, to and epoch.
#[derive(Clone, Copy)]
struct Raw(u16, u32, u32, u32, u32, u32);

// Writes a number where it fits.
fn put(bytes: &mut [u8], place: usize, number: u32) {
    if bytes.len() < 4 || place > bytes.len() - 4 {
        return;
    }
    bytes[place..place + 4].copy_from_slice(&number.to_le_bytes());
}

fn write(bytes: &mut [u8], raw: Raw) {
    let Raw(k, number, layout, from, to, epoch) = raw;
    let place = JOURNAL + 64 * usize::from(k);
    put(bytes, place, 1);
    put(bytes, place + 4, number);
    put(bytes, place + 8, number);
    put(bytes, place + 12, layout);
    put(bytes, place + 16, from);
    put(bytes, place + 20, to);
    put(bytes, place + 24, epoch);
}

// A disk with these open records.
fn disk_with(alloc: Global, records: &[Raw]) -> Result<MemDisk, AllocError> {
    let mut bytes = zeros(alloc, LEN)?;
    for raw in records {
        write(&mut bytes, *raw);
    }
    MemDisk::new(alloc, bytes)
}

// The record of a play, in its place.
fn good(k: u16, number: u32) -> Raw {
    Raw(k, number, 7, 100, 160, 5)
}

// Records, and the place and the number of the damage that an opening finds in them.
struct Damage(&'static [Raw], u64, u64);

// One thing that is wrong, of each kind.
const KINDS: [Damage; 9] = [
    Damage(&[Raw(0, 0, 7, 100, 160, 5)], 2_142_212, 0),
    Damage(
        &[Raw(65_534, 4_294_967_295, 7, 100, 160, 5)],
        6_336_388,
        4_294_967_295,
    ),
    Damage(&[Raw(1, 3, 7, 100, 160, 5)], 2_142_276, 3),
    Damage(&[Raw(0, 1, 7, 100, 160, 6)], 2_142_232, 6),
    Damage(&[Raw(0, 1, 7, 100, 100, 5)], 2_142_228, 100),
    Damage(
        &[Raw(0, 1, 7, 4_102_444_800, 4_102_444_801, 5)],
        2_142_224,
        4_102_444_800,
    ),
    Damage(
        &[Raw(0, 1, 7, 100, 4_102_444_800, 5)],
        2_142_228,
        4_102_444_800,
    ),
    Damage(&[Raw(0, 1, 0, 100, 160, 5)], 2_142_220, 0),
    Damage(
        &[Raw(0, 1, 7, 100, 160, 5), Raw(2, 3, 7, 100, 160, 5)],
        2_142_336,
        3,
    ),
];

// Several things that are wrong at once.
const ORDER: [Damage; 9] = [
    // in one record: the number, the epoch, the end, the start, the layout
    Damage(&[Raw(1, 3, 0, 160, 100, 6)], 2_142_276, 3),
    Damage(&[Raw(0, 1, 0, 160, 100, 6)], 2_142_232, 6),
    Damage(
        &[Raw(0, 1, 0, 4_102_444_801, 4_102_444_800, 5)],
        2_142_228,
        4_102_444_800,
    ),
    Damage(
        &[Raw(0, 1, 0, 4_102_444_801, 4_102_444_802, 5)],
        2_142_224,
        4_102_444_801,
    ),
    // by the place of the record, and not by its number
    Damage(
        &[Raw(9, 10, 0, 100, 160, 5), Raw(4, 65_541, 7, 100, 160, 6)],
        2_142_488,
        6,
    ),
    // a gap comes behind what is wrong in a record
    Damage(
        &[
            Raw(0, 1, 7, 100, 160, 5),
            Raw(2, 3, 7, 100, 160, 5),
            Raw(9, 10, 0, 100, 160, 5),
        ],
        2_142_796,
        0,
    ),
    // the least number behind a gap
    Damage(
        &[
            Raw(4, 5, 7, 100, 160, 5),
            Raw(6, 7, 7, 100, 160, 5),
            Raw(9, 10, 7, 100, 160, 5),
        ],
        2_142_592,
        7,
    ),
    // by its number, and not by its place
    Damage(
        &[
            Raw(0, 65_537, 7, 100, 160, 5),
            Raw(65_533, 65_534, 7, 100, 160, 5),
            Raw(65_531, 65_532, 7, 100, 160, 5),
        ],
        6_336_320,
        65_534,
    ),
    // a number of another round is no neighbour
    Damage(
        &[Raw(0, 1, 7, 100, 160, 5), Raw(1, 65_538, 7, 100, 160, 5)],
        2_142_272,
        65_538,
    ),
];

fn is_found(alloc: Global, damage: &Damage) -> Result<bool, Fail> {
    let mut disk = disk_with(alloc, damage.0)?;
    match open(alloc, &mut disk) {
        Err(OpenFault::Damaged { place, found }) => { Ok(place == damage.1 && found == damage.2) }
        _ => Ok(false),
    }
}

#[test]
fn each_damage_has_its_place(rt: HostRuntime) -> Result<(), Fail> {
    for damage in &KINDS {
        assert!(rt; is_found(rt.alloc(), damage)?, "at {}", damage.1);
    }
    Ok(())
}

#[test]
fn the_first_damage_is_the_answer(rt: HostRuntime) -> Result<(), Fail> {
    for damage in &ORDER {
        assert!(rt; is_found(rt.alloc(), damage)?, "at {}", damage.1);
    }
    Ok(())
}

#[test]
fn a_ring_that_went_round_is_no_damage(rt: HostRuntime) -> Result<(), Fail> {
    let records = [
        good(65_534, 131_071),
        good(65_535, 131_072),
        good(0, 131_073),
        good(1, 131_074),
    ];
    let mut disk = disk_with(rt.alloc(), &records)?;
    let mut journal = open(rt.alloc(), &mut disk)?;
    assert_eq!(rt; (journal.first(), journal.next()), (131_071, 131_075));
    let mut batch = Batch::new();
    journal.batch(64, &mut batch);
    assert_eq!(rt; batch.first(), 131_071);
    assert_eq!(rt;
        batch.plays(),
        [play(131_071), play(131_072), play(131_073), play(131_074)].as_slice()
    );
    assert_eq!(rt; record(&mut journal, &mut disk, 131_075), Ok(131_075));
    Ok(())
}

#[test]
fn a_gate_that_is_not_one_is_closed(rt: HostRuntime) -> Result<(), Fail> {
    let mut bytes = zeros(rt.alloc(), LEN)?;
    write(&mut bytes, good(3, 9));
    put(&mut bytes, JOURNAL + 64 * 3, 77);
    let mut disk = MemDisk::new(rt.alloc(), bytes)?;
    let journal = open(rt.alloc(), &mut disk)?;
    assert_eq!(rt; (journal.first(), journal.next()), (1, 1));
    Ok(())
}

#[test]
fn the_last_number_is_never_given(rt: HostRuntime) -> Result<(), Fail> {
    let mut disk = disk_with(rt.alloc(), &[good(65_532, 4_294_967_293)])?;
    let mut journal = open(rt.alloc(), &mut disk)?;
    assert_eq!(rt; record(&mut journal, &mut disk, 1), Ok(4_294_967_294));
    let begun = disk.begun();
    assert_eq!(rt; record(&mut journal, &mut disk, 2), Err(AppendFault::Spent));
    assert_eq!(rt; disk.begun(), begun, "no call");
    assert_eq!(rt; journal.next(), 4_294_967_295);
    Ok(())
}

// The bytes of a disk whose records hold so many plays, from the first on.
fn ring(alloc: Global, plays: u16) -> Result<Vec<u8>, AllocError> {
    let mut bytes = zeros(alloc, LEN)?;
    for k in 0..plays {
        write(&mut bytes, good(k, u32::from(k) + 1));
    }
    Ok(bytes)
}

// Whether the plays that aren't acknowledged are those of their numbers.
fn holds_its_numbers(journal: &mut Journal) -> bool {
    let mut batch = Batch::new();
    for _ in 0..1_025 {
        journal.batch(64, &mut batch);
        if batch.plays().is_empty() {
            return true;
        }
        let mut number = batch.first();
        for found in batch.plays() {
            if *found != play(number) {
                return false;
            }
            number = number.saturating_add(1);
        }
        acknowledge(journal, number);
    }
    false
}

const PICKS: [Pick; 5] = [
    Pick::Nothing,
    Pick::All,
    Pick::Byte(0),
    Pick::Byte(1),
    Pick::Byte(255),
];

// A crash in each call of an append: the plays before it are there, with the new one or without.
fn crash_at(alloc: Global, bytes: &[u8], next: u32, calls: u64) -> Result<bool, Fail> {
    for pick in PICKS {
        let mut disk = MemDisk::new(alloc, Vec::from_slice(alloc, bytes)?)?;
        let mut journal = open(alloc, &mut disk)?;
        acknowledge(&mut journal, 2);
        disk.set_fuse(Fuse::Crash(calls));
        if record(&mut journal, &mut disk, next) != Err(AppendFault::Disk) {
            return Ok(false);
        }
        let mut left = MemDisk::new(alloc, disk.image(pick)?)?;
        let mut again = open(alloc, &mut left)?;
        let came = again.next();
        if again.first() > 2 || came < next || came - next > 1 {
            return Ok(false);
        }
        if !holds_its_numbers(&mut again) || again.next() != came {
            return Ok(false);
        }
    }
    Ok(true)
}

#[test]
fn a_crash_in_an_append_of_four_calls(rt: HostRuntime) -> Result<(), Fail> {
    let bytes = ring(rt.alloc(), 3)?;
    for calls in 0..4 {
        assert!(rt; crash_at(rt.alloc(), &bytes, 4, calls)?, "at {calls}");
    }
    Ok(())
}

#[test]
fn a_crash_in_an_append_of_six_calls(rt: HostRuntime) -> Result<(), Fail> {
    let mut bytes = ring(rt.alloc(), 65_535)?;
    write(&mut bytes, good(65_535, 65_536));
    for calls in 0..6 {
        assert!(rt; crash_at(rt.alloc(), &bytes, 65_537, calls)?, "at {calls}");
    }
    Ok(())
}

#[test]
fn a_disk_that_fails_is_answered(rt: HostRuntime) -> Result<(), Fail> {
    let mut disk = fresh(rt.alloc())?;
    disk.set_fuse(Fuse::Fault(0));
    assert!(rt;
        matches!(open(rt.alloc(), &mut disk), Err(OpenFault::Disk)),
        "the sync"
    );
    disk.set_fuse(Fuse::Fault(64));
    assert!(rt;
        matches!(open(rt.alloc(), &mut disk), Err(OpenFault::Disk)),
        "the last read"
    );
    let mut journal = open(rt.alloc(), &mut disk)?;
    for calls in 0..4 {
        disk.set_fuse(Fuse::Fault(calls));
        let faults = disk.faults();
        assert_eq!(rt;
            record(&mut journal, &mut disk, 1),
            Err(AppendFault::Disk),
            "{calls}"
        );
        assert_eq!(rt; disk.faults(), faults.saturating_add(1));
        journal = open(rt.alloc(), &mut disk)?;
        assert_eq!(rt; journal.next(), if calls < 3 { 1 } else { 2 }, "at {calls}");
    }
    Ok(())
}

#[test]
fn a_list_of_plays_is_recorded_in_order(rt: HostRuntime) -> Result<(), Fail> {
    let mut disk = fresh(rt.alloc())?;
    let mut journal = open(rt.alloc(), &mut disk)?;
    assert_eq!(rt; record_three(&mut journal, &mut disk), Ok(()));
    let mut batch = Batch::new();
    journal.batch(64, &mut batch);
    assert_eq!(rt; batch.plays(), [play(1), play(2), play(3)].as_slice());
    disk.set_fuse(Fuse::Crash(6));
    assert_eq!(rt;
        record_three(&mut journal, &mut disk),
        Err(AppendFault::Disk)
    );
    // the crash met the writing of the second one's gate
    for (pick, next) in [
        (Pick::Nothing, 5),
        (Pick::All, 6),
        (Pick::Byte(0), 5),
        (Pick::Byte(1), 6),
        (Pick::Byte(255), 5),
    ] {
        let mut left = MemDisk::new(rt.alloc(), disk.image(pick)?)?;
        assert_eq!(rt; open(rt.alloc(), &mut left)?.next(), next, "{pick:?}");
    }
    Ok(())
}

fn record_three(journal: &mut Journal, disk: &mut MemDisk) -> Result<(), AppendFault> {
    if disk.bytes().len() < LEN {
        return Err(AppendFault::Disk);
    }
    append_all(journal, disk, &[play(1), play(2), play(3)])
}

#[test]
fn a_life_of_two_hundred_thousand_plays(rt: HostRuntime) -> Result<(), Fail> {
    let mut disk = fresh(rt.alloc())?;
    let mut journal = open(rt.alloc(), &mut disk)?;
    for number in 1..200_001 {
        assert_eq!(rt; record(&mut journal, &mut disk, number), Ok(number));
        if number % 1_000 == 0 {
            acknowledge(&mut journal, number);
        }
    }
    // four calls for the first round, six for every play behind it, and 65 for the opening
    assert_eq!(rt; disk.begun(), 65 + 4 * 65_536 + 6 * 134_464);
    let mut again = open(rt.alloc(), &mut disk)?;
    assert_eq!(rt; (again.first(), again.next()), (134_465, 200_001));
    assert!(rt; holds_its_numbers(&mut again));
    Ok(())
}

// Records so many plays, with their numbers from 1 on.
fn record_many<D: Disk>(journal: &mut Journal, disk: &mut D, plays: u32) -> Result<(), AppendFault>
    requires { 6336512 ≤ (D.view disk.old).size }
{
    for i in 0..plays {
        journal.append(disk, &play(i.saturating_add(1)))?;
    }
    Ok(())
}

const FOLDER: &str = "sg_journal_test";

const PATH: &str = "sg_journal_test/store";

// bench/journal takes the time of this test
#[test]
fn a_file_keeps_two_hundred_plays(rt: HostRuntime) -> Result<(), Fail> {
    let _ = fs::remove_dir_all(&rt, FOLDER);
    fs::create_dir(&rt, FOLDER)?;
    let mut disk = FileDisk::new(rt.clone()?, String::from_str(rt.alloc(), PATH)?);
    disk.resize(6_402_048)?;
    let mut journal = Journal::open(rt.alloc(), &mut disk, EPOCH)?;
    assert_eq!(rt; record_many(&mut journal, &mut disk, 200), Ok(()));
    drop(disk);
    let mut again = FileDisk::new(rt.clone()?, String::from_str(rt.alloc(), PATH)?);
    if again.len()? < 6_402_048 {
        return Err(AppendFault::Disk.into());
    }
    let mut journal = Journal::open(rt.alloc(), &mut again, EPOCH)?;
    assert_eq!(rt; (journal.first(), journal.next()), (1, 201));
    assert!(rt; holds_its_numbers(&mut journal));
    fs::remove_dir_all(&rt, FOLDER)?;
    Ok(())
}
