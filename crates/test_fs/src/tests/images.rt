//! Volumes with changed bytes: those that hold no tree are refused, and nothing is written to them.
//!
//! A line of a text is such a volume, after its name: what is put into a good one, in the form of
//! `sectors::put_all`.

use super::drivers::{Disk, NO_CALL, disk_of, judge};
use super::filling::OF_16_NODES;
use super::sectors::{Image, copy_image, put_all, volume_image};
use super::version_1::take_back;
use disk::Stop;
use fs::MountFault;
use std::alloc::{AllocError, Global};
use std::process::Abort;
use std::test::Fail;

/// A seat at the first place: of session 2 of client 3 of run 1, of principal 7 and the owner `A`,
/// with two slots, of which the first one holds a result of nine bytes.
const SEAT: &str = "a seat: \
    @100 53455353 00000001 00000003 00000000 00000002 00000007 00000002 00000001 41 \
    @101 00000001 00000005 00000007 00000009 00000000 00000000 746865207265706c79";

const NO_CHANGE: &str = "no change: 0*1";

/// Of the volume of `filling`.
const GOOD: &str = "no change: 0*1
72 ACEs: @160 0*85 48
the mark of a migration that has moved all nodes: @147 4d49475200000010";

/// Of that with the seat.
const GOOD_SEATS: &str = "no change: 0*1
one at the last place, of run 2, with one slot and no owner: @136 5345535300000002 0*19 01
another session of the client: @109 534553530000000100000003 00000000 00000003 0*7 02
an owner of 1,024 bytes: @100 0*30 0400 0*1023 01
a result of 16,360 bytes: @101 0*14 3fe8 @104 0*4095 01
a result of none: @101 0*15 00 0*8 000000000000000000
one in the other slot: @105 0*3 01
nothing is held: @101 00000000 00000000 00000000 00000000 0*8 000000000000000000";

const NO_VERSIONS: &str = "no magic: @0 00
version 0: @0 0*11 00
version 3: @0 0*11 03
a version of two bytes: @0 0*10 01";

const FAULTS: &str = "a gate of no targets: @1 0000000100000000
of 97: @1 0000000100000061
of the target 97: @1 000000010000000100000061
of the sector after the last: @1 000000010000000100000100
of a target twice: @1 00000001 00000002 00000094 00000094
version 1, which has nodes of form one: @0 0*11 01
the magic of form one: @160 0*3 45
a node of form one: @160 0*3 45 0*1 03 0*79 00
a node's magic: @160 6e
the number of ACEs in form one: @160 0*5 03
more than 255 ACEs: @160 0*84 01
73 ACEs: @160 0*85 49
the byte after their number: @160 0*86 01
the byte before the ACEs: @160 0*127 01
two nodes of one number: @160 0*15 06
a name of a missing number: @164 0*279 09
two names of one node: @164 0*279 06
a and b hold each other, and the root has c: @168 0*7 01 @164 0*7 03
one sector in two runs: @174 0*111 aa
a run past the size: @174 0*105 03
a run sector without runs: @160 0*7 00
a used bit missing: @98 7f
a bit too many: @98 0*1 f8
an ACE of no type: @160 0*128 02
one of rights that there are not: @160 0*132 01
a byte of a free seat: @100 01
one of the mark's sector: @147 0*4095 01
the mark of no places: @147 4d49475200000000
of 15: @147 4d4947520000000f
of 17: @147 4d49475200000011
a byte beside a mark: @147 4d4947520000001001
one name twice: @164 0*289 61
a stamp of a later run: @164 0*280 0000000300000000
a byte past the size: @171 0*904 01";

const SEAT_FAULTS: &str = "the first byte of the magic: @100 73
its last one: @100 0*3 73
a zero in it: @100 00
no magic: @100 00000000
a reply alone: @100 000000000000000000000000000000000000000000000000000000000000000000
no slot: @100 0*27 00
three: @100 0*27 03
257: @100 0*26 0101
one, where the other holds a reply: @100 0*27 01 @105 0*3 01
an owner of 1,025 bytes: @100 0*30 0401
a byte past the owner: @100 0*33 01
past any owner: @100 0*1056 01
the last one: @100 0*4095 01
run 0: @100 0*7 00
run 3 where 2 began: @100 0*7 03
run 257: @100 0*6 01
a reply that is none: @101 0*3 02
one of 16,361 bytes: @101 0*14 3fe9
a byte between its fields: @101 0*16 01
past it: @101 0*33 01
past any: @104 0*4095 01
a byte where no reply is held: @105 0*4 01
behind the seats: @145 01
the last one there: @146 0*4095 01
a session twice: @109 534553530000000100000003 00000000 00000002 0*7 01
at the last place: @136 534553530000000100000003 00000000 00000002 0*7 01
a seat beside a mark: @147 4d49475200000010";

/// Of version 1, with 13 of the 16 places moved, which have the nodes of the sectors 148, 159 and
/// 160.
const MOVING_FAULTS: &str = "no mark: @147 0000000000000000
the mark of no places: @147 0*7 00
of a place too few: @147 0*7 0c
of one too many: @147 0*7 0e
of more than there are: @147 0*7 11
another magic: @147 0*3 53
a byte beside a mark: @147 0*8 01
the last one: @147 0*4095 01
version 2: @0 0*11 02
a moved node of form one: @160 0*3 45 0*1 03 0*79 00
one of form two that is not moved: @163 0*3 32 0*1 00 0*79 03
41 ACEs in form one: @163 0*5 29
the number of ACEs in form two: @163 0*84 01
its other byte: @163 0*85 03";

/// The volume with the change of a line.
pub(super) fn changed(alloc: Global, good: &Image, line: &str) -> Result<Disk, Fail> {
    let mut image = copy_image(alloc, good)?;
    put_line(&mut image, line);
    disk_of(alloc, image, Stop::Never, NO_CALL)
}

fn put_line(image: &mut Image, line: &str) {
    if let Some((_, change)) = line.split_once(": ") {
        put_all(image, change);
    }
}

/// Each is taken, or refused with this fault.
pub(super) fn expect(
    rt: &impl Abort,
    alloc: Global,
    good: &Image,
    lines: &str,
    wanted: Result<(), MountFault>,
) -> Result<(), Fail> {
    for line in lines.lines() {
        let found = judge(alloc, changed(alloc, good, line)?);
        assert!(rt; found == Some(wanted), "{line}: {found:?}");
    }
    Ok(())
}

pub(super) const DAMAGED: Result<(), MountFault> = Err(MountFault::Damaged);

pub(super) const NO_VOLUME: Result<(), MountFault> = Err(MountFault::NotVolume);

/// With the seat.
fn seated(alloc: Global) -> Result<Image, AllocError> {
    let mut image = volume_image(alloc, OF_16_NODES)?;
    put_line(&mut image, SEAT);
    Ok(image)
}

/// Of version 1, with `moved` places moved.
fn moving(alloc: Global, moved: u8) -> Result<Image, AllocError> {
    let mut image = volume_image(alloc, OF_16_NODES)?;
    take_back(&mut image, 16, moved);
    Ok(image)
}

#[test]
fn good_volumes_are_taken(rt: HostRuntime) -> Result<(), Fail> {
    expect(
        &rt,
        rt.alloc(),
        &volume_image(rt.alloc(), OF_16_NODES)?,
        GOOD,
        Ok(()),
    )?;
    expect(&rt, rt.alloc(), &seated(rt.alloc())?, GOOD_SEATS, Ok(()))
}

#[test]
fn faults_are_refused(rt: HostRuntime) -> Result<(), Fail> {
    let good = volume_image(rt.alloc(), OF_16_NODES)?;
    expect(&rt, rt.alloc(), &good, FAULTS, DAMAGED)?;
    expect(&rt, rt.alloc(), &good, NO_VERSIONS, NO_VOLUME)
}

#[test]
fn faults_of_a_migration_are_refused(rt: HostRuntime) -> Result<(), Fail> {
    let good = moving(rt.alloc(), 13)?;
    expect(&rt, rt.alloc(), &good, MOVING_FAULTS, DAMAGED)?;
    expect(&rt, rt.alloc(), &good, NO_VERSIONS, NO_VOLUME)
}

#[test]
fn faults_of_a_seat_are_refused(rt: HostRuntime) -> Result<(), Fail> {
    let good = seated(rt.alloc())?;
    expect(&rt, rt.alloc(), &good, SEAT_FAULTS, DAMAGED)
}

/// Of version 1, with none, some and all places moved.
#[test]
fn a_seat_in_version_1_is_refused(rt: HostRuntime) -> Result<(), Fail> {
    for moved in [0, 4, 16] {
        let good = moving(rt.alloc(), moved)?;
        expect(&rt, rt.alloc(), &good, NO_CHANGE, Ok(()))?;
        expect(&rt, rt.alloc(), &good, SEAT, DAMAGED)?;
    }
    Ok(())
}
