//! Volumes of version 3: what a format leaves, which sizes and which changed bytes are refused,
//! that the limits in the first sector are reached, and what crashes leave.

ghost use Rattle.std.specs.Prelude.{◌≡◌, ◌≤◌, ◌<◌, ℕ, length, IfOk};
ghost use Rattle.model_tree.specs.Seats.SeatEdits.{AreEdits, edits_view};
ghost use Rattle.model_tree.specs.Seats.Seats.{Seats};

use super::caches::{caller, make, remove, write};
use super::drivers::{Disk, NO_CALL, check, disk_of, image_of, try_mount};
use super::filling::OF_16_NODES;
use super::images::{DAMAGED, NO_VOLUME, changed, expect};
use super::migrations::land;
use super::sectors::{Image, put_all, volume_image};
use disk::{SECTOR, Stop, landings};
use fs::{Fs, FsFault, Mounted};
use geometry::{Geometry, Superblock};
use model_tree::seat_edits::SeatEdits;
use model_tree::seats::{Seat, SeatEdit};
use model_tree::status::Status;
use std::alloc::{AllocError, Global};
use std::process::Abort;
use std::test::Fail;
use volume::{FormatFault, MountFault};

/// A geometry: its sectors, nodes, sectors of the log, seats, slots of each, and the most names of
/// a directory and bytes of a file.
type Numbers = (u32, u32, u32, u16, u16, u32, u64);

/// The node table is sectors 148 to 163, the data region 164 to 266; the seats are 267 to 311, and
/// the log is behind them.
const SMALL: Numbers = (600, 16, 288, 5, 2, 4, 10_000);

/// Its five seats have room for eight slots each.
const EIGHT_SLOTS: Numbers = (700, 16, 288, 5, 8, 4, 10_000);

/// Each of these volumes has as many seats.
const PLACES: usize = 5;

/// Its data region has 16 sectors, and no volume has fewer.
const LEAST: Numbers = (513, 16, 288, 5, 2, 1_000, 4_096);

/// The first sector of the small volume after a format.
const FIRST: &str = "@0 4e46533431564f4c 00000003 00000258 00000010 00000000 00000120 0005 0002 \
    00000004 00000000 0000000000002710 30313233343536373839616263646566";

/// The root after a format.
const NEW: &str = "@148 4e4f443202 0*10 01 0*15 01 0*53 01 0*43 02 0*3 1f01e7";

/// Makes the volume of `filling` one of version 3, which was mounted twice and has no bitmap.
const FILLED: &str = "@0 0*23 02 @98 0000";

/// The same, with a seat at the first place: of session 2 of client 3 of run 1, of principal 7 and
/// the owner `A`, with two slots, of which the first one holds a result of nine bytes.
const SEATED: &str = "@0 0*23 02 @98 0000 \
    @267 53455353 00000001 00000003 00000000 00000002 00000007 00000002 00000001 41 \
    @268 00000001 00000005 00000007 00000009 00000000 00000000 746865207265706c79";

/// What may be anything, or is at its limit.
const GOOD: &str = "no change: 0*1
another identity: @0 0*48 ff
four seats: @0 0*29 04
one slot of each: @0 0*31 01
as many names as the root has: @0 0*35 03
as many bytes as the longest file has: @0 0*46 2005
anything in the log, with no commit record: @312 01 @599 0*4095 01
in the data region: @266 01
behind the first sector of a free seat: @268 01 @275 0*4095 01 @311 0*4095 01
a run at the last sector of the data region: @174 0*110 010a
a target at the last sector before the log: @1 00000001 00000001 00000137
a target twice, of which the later content counts: @1 00000001 00000002 00000062 00000062 @312 01";

const NO_VERSIONS: &str = "no magic: @0 00
with a full count: @0 00 0*19 ffffffff
version 0: @0 0*11 00
version 4: @0 0*11 04
another number of sectors: @0 0*15 59
one node: @0 0*19 01
too few sectors for as many nodes: @0 0*19 68
a log of 287 sectors: @0 0*26 011f
of 1,023: @0 0*26 03ff
no seat: @0 0*29 00
65 seats: @0 0*29 41
no slot: @0 0*31 00
nine slots: @0 0*31 09
no name: @0 0*35 00
1,025 names: @0 0*34 0401
no byte of a file: @0 0*46 0000
16,777,217 bytes: @0 0*44 01000001";

const FAULTS: &str = "version 2: @0 0*11 02
a byte before the most bytes of a file: @0 0*36 01
behind the fields: @0 0*64 01
the last one: @0 0*4095 01
fewer names than the root has: @0 0*35 02
fewer bytes than the longest file has: @0 0*46 2004
a commit record of no targets: @1 0000000100000000
of 289: @1 0000000100000121
of the target 97: @1 000000010000000100000061
of the first sector of the log: @1 000000010000000100000138
a byte behind the targets: @1 00000001000000010000006201
a byte where a bitmap was: @98 80
the last one before the nodes: @147 0*4095 01
the mark of a migration: @147 4d49475200000010
one sector in two runs: @174 0*111 aa
in a run and as a run sector: @174 0*111 ac
a run at the first seat: @174 0*110 010b
that ends there: @174 0*99 02 0*2 010a
at the log: @174 0*110 0138
behind the volume: @174 0*110 0258
at the last sector that there may be: @174 0*108 ffffffff
at a node: @174 0*111 a3
a run sector at the first seat: @160 0*50 010b
the first byte of a free seat: @267 01
the last one of its first sector: @303 0*4095 01";

const GOOD_SEATS: &str = "no change: 0*1
one at the last place, of run 2: @303 5345535300000002 0*19 01
another session of the client: @276 534553530000000100000003 00000000 00000003 0*7 02
none, and what was held: @267 00000000 00000000 00000000 00000000 00000000 00000000 00000000 \
    00000000 00";

const SEAT_FAULTS: &str = "a byte of the magic: @267 0*3 73
a byte past the owner: @267 0*33 01
run 0: @267 0*7 00
run 3 where 2 began: @267 0*7 03
a reply that is none: @268 0*3 02
where no reply is held: @272 0*4 01
the last one there: @275 0*4095 01
a session twice: @276 534553530000000100000003 00000000 00000002 0*7 01
at the last place: @303 534553530000000100000003 00000000 00000002 0*7 01";

/// No more mounts can be counted.
const FULL: &str = "a full count: @0 0*20 ffffffff";

const FULL_FAULTS: &str = "a byte behind the fields: @0 0*20 ffffffff 0*40 01
no tree: @0 0*20 ffffffff @98 01";

/// A mount copies home what the commit record names, and then finds no tree.
const COPIED: &str =
    "a target twice, then with a byte: @1 00000001 00000002 00000062 00000062 @313 01
the first sector of a free seat, with a byte: @1 00000001 00000001 0000010b @312 0*4095 01";

/// How many sectors a device has, and a geometry of no volume on it.
const SIZES: [(u32, Numbers); 15] = [
    (599, SMALL),
    (601, SMALL),
    (0, SMALL),
    (512, (512, 16, 288, 5, 2, 1_000, 4_096)),
    (600, (600, 1, 288, 5, 2, 4, 10_000)),
    (1_400, (1_400, 16, 287, 5, 2, 4, 10_000)),
    (1_400, (1_400, 16, 1_023, 5, 2, 4, 10_000)),
    (1_400, (1_400, 16, 288, 0, 2, 4, 10_000)),
    (1_400, (1_400, 16, 288, 65, 2, 4, 10_000)),
    (1_400, (1_400, 16, 288, 5, 0, 4, 10_000)),
    (1_400, (1_400, 16, 288, 5, 9, 4, 10_000)),
    (600, (600, 16, 288, 5, 2, 0, 10_000)),
    (600, (600, 16, 288, 5, 2, 1_025, 10_000)),
    (600, (600, 16, 288, 5, 2, 4, 0)),
    (600, (600, 16, 288, 5, 2, 4, 16_777_217)),
];

const BLOCK: [u8; SECTOR] = [1; SECTOR];

/// More files than there are nodes.
const MAX_FILES: usize = 17;

/// The offset and the bytes of each file, how many files a volume takes, and why no more.
const LIMITS: [(Numbers, u64, &[u8], usize, Status); 4] = [
    (SMALL, 9_999, b"x", 4, Status::NoSpc),
    ((600, 3, 288, 5, 2, 4, 1), 0, b"", 2, Status::NoSpc),
    (LEAST, 0, &BLOCK, 7, Status::NoSpc),
    (LEAST, 1, &BLOCK, 0, Status::FBig),
];

/// The most writes and syncs of `live`, and the landings that are tried, of which nothing and
/// everything are the first.
const MAX_STEPS: u64 = 1_000;

const FEW: usize = 3;

/// Whether there are a seat at the first place and the names `one` and `two`; none if there is no
/// volume.
type Found = Option<[bool; 3]>;

/// What is found after each call of `live`.
const STATES: [Found; 6] = [
    None,
    Some([false, false, false]),
    Some([true, false, false]),
    Some([true, true, false]),
    Some([true, true, true]),
    Some([true, false, true]),
];

fn format(alloc: Global, disk: &mut Disk, numbers: Numbers) -> Result<(), FormatFault> {
    let (sectors, nodes, log, seats, slots, names, file_bytes) = numbers;
    let superblock = Superblock {
        geometry: Geometry {
            sectors,
            nodes,
            log,
            seats,
            slots,
            names,
            file_bytes,
        },
        identity: *b"0123456789abcdef",
    };
    volume::format_large(alloc, disk, &superblock)
}

/// A device on which each byte of each sector is this one.
fn filled_disk(alloc: Global, sectors: u32, byte: u8, stop: Stop) -> Result<Disk, Fail> {
    let image = Vec::from_elem(alloc, [byte; SECTOR], sectors as usize)?;
    disk_of(alloc, image, stop, NO_CALL)
}

/// The small volume with these sectors, and these changes of them.
fn small_image(alloc: Global, text: &'static str, change: &str) -> Result<Image, AllocError> {
    let mut image = volume_image(alloc, (600, text))?;
    put_all(&mut image, FIRST);
    put_all(&mut image, change);
    Ok(image)
}

/// Fills what a format does not write: the data region and the log.
fn fill_unwritten(image: &mut Image, byte: u8) {
    for (number, bytes) in image.iter_mut().enumerate() {
        if matches!(number, 164..267 | 312..) {
            *bytes = [byte; SECTOR];
        }
    }
}

#[test]
fn a_format_leaves_the_data_and_the_log(rt: HostRuntime) -> Result<(), Fail> {
    let mut disk = filled_disk(rt.alloc(), 600, 7, Stop::Never)?;
    format(rt.alloc(), &mut disk, SMALL)?;
    let mut wanted = small_image(rt.alloc(), NEW, "")?;
    fill_unwritten(&mut wanted, 7);
    let left = image_of(rt.alloc(), &mut disk)?;
    assert!(rt; left.as_slice() == wanted.as_slice(), "another sector");
    Ok(())
}

#[test]
fn other_sizes_are_not_formatted(rt: HostRuntime) -> Result<(), Fail> {
    for (sectors, numbers) in SIZES {
        let mut disk = filled_disk(rt.alloc(), sectors, 0, Stop::Never)?;
        let answer = format(rt.alloc(), &mut disk, numbers);
        let is_unchanged = disk.into_inner().calls().is_empty();
        assert!(rt;
            answer == Err(FormatFault::Size) && is_unchanged,
            "{sectors}: {answer:?}"
        );
    }
    Ok(())
}

#[test]
fn changed_bytes_are_judged(rt: HostRuntime) -> Result<(), Fail> {
    let good = small_image(rt.alloc(), OF_16_NODES.1, FILLED)?;
    expect(&rt, rt.alloc(), &good, GOOD, Ok(()))?;
    expect(&rt, rt.alloc(), &good, NO_VERSIONS, NO_VOLUME)?;
    expect(&rt, rt.alloc(), &good, FAULTS, DAMAGED)
}

#[test]
fn changed_seats_are_judged(rt: HostRuntime) -> Result<(), Fail> {
    let good = small_image(rt.alloc(), OF_16_NODES.1, SEATED)?;
    expect(&rt, rt.alloc(), &good, GOOD_SEATS, Ok(()))?;
    expect(&rt, rt.alloc(), &good, SEAT_FAULTS, DAMAGED)
}

/// A mount of each is refused with one fault, and a check returns this.
fn expect_both(
    rt: &impl Abort,
    alloc: Global,
    lines: &str,
    mounted: MountFault,
    checked: Result<(), MountFault>,
) -> Result<(), Fail> {
    let good = small_image(alloc, OF_16_NODES.1, FILLED)?;
    for line in lines.lines() {
        let mut disk = changed(alloc, &good, line)?;
        let found = check(alloc, &mut disk);
        assert!(rt; found == checked, "{line}: {found:?}");
        let found = try_mount(alloc, &mut disk);
        assert!(rt; found == Err(mounted), "{line}: {found:?}");
    }
    Ok(())
}

#[test]
fn a_full_count_is_returned_second(rt: HostRuntime) -> Result<(), Fail> {
    expect_both(&rt, rt.alloc(), FULL, MountFault::Worn, Ok(()))?;
    expect_both(&rt, rt.alloc(), FULL_FAULTS, MountFault::Worn, DAMAGED)?;
    expect_both(&rt, rt.alloc(), COPIED, MountFault::Damaged, DAMAGED)
}

/// A session of run 1 takes the first of five places, and the others are freed.
#[tactic(auto, using(crate::proofs::SeatLaws::takes_first))]
fn seat_edits(alloc: Global) -> Result<SeatEdits, AllocError>
    ensures { IfOk result (λ edits. (run slots : ℕ) (seats : Seats) → 0 < run → 1 ≤ slots
        → length seats ≡ 5 → AreEdits run slots (edits_view edits) seats) }
{
    let seat = Seat {
        session: [0, 0, 0, 1, 0, 0, 0, 3, 0, 0, 0, 0, 0, 0, 0, 2],
        owner: Vec::new(alloc),
        principal: 7,
        slots: vec![in alloc; None]?,
    };
    let list = vec![in alloc;
        SeatEdit::Takes(seat),
        SeatEdit::Frees,
        SeatEdit::Frees,
        SeatEdit::Frees,
        SeatEdit::Frees,
    ]?;
    Ok(SeatEdits { list })
}

/// Mounts a disk, and keeps that seat.
fn start(alloc: Global, disk: &mut Disk) -> Result<Fs<&mut Disk>, FsFault> {
    let edits = seat_edits(alloc)?;
    let Ok(Mounted { mut fs, seats }) = Fs::mount_seated(alloc, disk, None) else {
        return Err(FsFault::Device);
    };
    if seats.places.len() != PLACES || fs.version().seat_sizes().slots == 0 {
        return Err(FsFault::Device);
    }
    fs.put_seats(&edits)?;
    Ok(fs)
}

/// Makes files with these bytes in a new volume. Returns how many it takes, and why no more.
fn fill(
    alloc: Global,
    numbers: Numbers,
    offset: u64,
    bytes: &[u8],
) -> Result<(usize, FsFault), Fail> {
    let mut disk = filled_disk(alloc, numbers.0, 0, Stop::Never)?;
    format(alloc, &mut disk, numbers)?;
    let mut fs = start(alloc, &mut disk)?;
    for place in 0..MAX_FILES {
        let name = format!(in alloc; "f{place}")?;
        if let Err(fault) = make_with(&mut fs, name.as_bytes(), offset, bytes) {
            return Ok((place, fault));
        }
    }
    Err("no limit".into())
}

fn make_with(
    fs: &mut Fs<&mut Disk>,
    name: &[u8],
    offset: u64,
    bytes: &[u8],
) -> Result<(), FsFault> {
    let number = make(fs, name)?;
    write(fs, number, offset, bytes, true)
}

#[test]
fn limits_are_reached(rt: HostRuntime) -> Result<(), Fail> {
    for (numbers, offset, bytes, count, status) in LIMITS {
        let filled = fill(rt.alloc(), numbers, offset, bytes)?;
        assert!(rt; filled == (count, FsFault::Status(status)), "{filled:?}");
    }
    Ok(())
}

/// A format and changes, each of which is kept. Counts those that returned.
fn live(alloc: Global, numbers: Numbers, disk: &mut Disk, done: &mut usize) -> Result<(), FsFault> {
    if format(alloc, disk, numbers).is_err() {
        return Err(FsFault::Device);
    }
    *done = 1;
    let mut fs = start(alloc, disk)?;
    *done = 2;
    make(&mut fs, b"one")?;
    *done = 3;
    make(&mut fs, b"two")?;
    *done = 4;
    remove(&mut fs, b"one")?;
    *done = 5;
    Ok(())
}

fn has(fs: &Fs<&mut Disk>, name: &[u8]) -> bool {
    fs.lookup(&caller(), 1, name).is_ok()
}

/// What a mount finds on these sectors.
fn look(alloc: Global, image: Image) -> Result<Found, Fail> {
    let mut disk = disk_of(alloc, image, Stop::Never, NO_CALL)?;
    match Fs::mount_seated(alloc, &mut disk, None) {
        Ok(Mounted { fs, seats }) => Ok(Some([
            matches!(seats.places.first(), Some(Some(_))),
            has(&fs, b"one"),
            has(&fs, b"two"),
        ])),
        Err(refused) if refused.fault == MountFault::NotVolume => Ok(None),
        Err(refused) => Err(refused.fault.into()),
    }
}

/// A life that crashes within this step leaves what it kept, with or without what it was doing.
/// Returns whether there is such a step.
fn crash(rt: &impl Abort, alloc: Global, numbers: Numbers, step: u64) -> Result<bool, Fail> {
    let mut disk = filled_disk(alloc, numbers.0, 0, Stop::Within(step))?;
    let mut done = 0;
    match live(alloc, numbers, &mut disk, &mut done) {
        Ok(()) => return Ok(false),
        Err(FsFault::Device) => {}
        Err(fault) => return Err(fault.into()),
    }
    let crashed = disk.into_inner();
    for landing in landings(alloc, &crashed.unsynced(alloc)?)?.iter().take(FEW) {
        let found = look(alloc, land(alloc, &crashed, landing)?)?;
        let is_kept = STATES
            .iter()
            .skip(done)
            .take(2)
            .any(|state| *state == found);
        assert!(rt; is_kept, "step {step}, after {done} calls: {found:?}");
    }
    Ok(true)
}

/// The crashes of a life within each of its steps.
fn crashes(rt: &impl Abort, alloc: Global, numbers: Numbers) -> Result<(), Fail> {
    for step in 0..MAX_STEPS {
        if !crash(rt, alloc, numbers, step)? {
            return Ok(());
        }
    }
    Err("too many steps".into())
}

#[test]
fn crashes_leave_what_was_kept(rt: HostRuntime) -> Result<(), Fail> {
    crashes(&rt, rt.alloc(), SMALL)
}

#[test]
fn crashes_leave_seats_of_eight_slots(rt: HostRuntime) -> Result<(), Fail> {
    crashes(&rt, rt.alloc(), EIGHT_SLOTS)
}
