//! Mounts of version 1: wherever one crashes, and whatever call of the device fails, the same tree
//! is there, and in the end it has version 2.

use super::drivers::{NO_CALL, check, disk_of, image_of, try_mount};
use super::filling::{OF_16_NODES, OF_64_NODES};
use super::sectors::{Image, MARK, NODES, byte_at, copy_image, put_all, volume_image};
use super::version_1::{FILLED, WIDE, take_back};
use disk::{CallKind, CrashDevice, Landed, SECTOR, Stop, landings};
use fs::MountFault;
use std::alloc::{AllocError, Global};
use std::test::Fail;

/// More calls of a kind than a mount makes, and more places than crashes leave.
const MAX_CALLS: usize = 2_000;

const MAX_PLACES: usize = 100;

/// The landings of nothing and of everything are among the first of more than six sectors.
const FEW: usize = 4;

/// The first sector that represents a tree, the bitmap.
const TREE: usize = 98;

/// How far a volume is from version 1 to version 2: its version, how many places are moved, as its
/// mark says, and how many sectors the gate names.
type Place = [u8; 3];

/// Gives each sector that the gate names what the log has for it.
fn settle(image: &mut Image) {
    for i in 0..usize::from(byte_at(image, 1, 7)) {
        let at = i.saturating_mul(4).saturating_add(10);
        let high = byte_at(image, 1, at);
        let low = byte_at(image, 1, at.saturating_add(1));
        let target = usize::from(u16::from_be_bytes([high, low]));
        let content = image.get(i.saturating_add(2)).copied();
        if let (Some(to), Some(content)) = (image.get_mut(target), content) {
            *to = content;
        }
    }
}

/// The sector of a node of form one as it is in form two.
fn move_node(bytes: &mut [u8; SECTOR]) {
    if bytes.starts_with(b"NODE") {
        bytes[3] = b'2';
        bytes[85] = bytes[5];
        bytes[5] = 0;
    }
}

/// Leaves the sectors that represent a tree, with each node in form two.
fn keep_tree(image: &mut Image) {
    for (number, bytes) in image.iter_mut().enumerate() {
        if number < TREE || number == MARK {
            *bytes = [0; SECTOR];
        } else if NODES <= number {
            move_node(bytes);
        }
    }
}

/// How far the migration of the volume is, and its tree.
fn read_image(alloc: Global, image: &Image) -> Result<(Place, Image), AllocError> {
    let mut tree = copy_image(alloc, image)?;
    settle(&mut tree);
    let place = [
        byte_at(&tree, 0, 11),
        byte_at(&tree, MARK, 7),
        byte_at(&tree, 1, 7),
    ];
    keep_tree(&mut tree);
    Ok((place, tree))
}

/// The version, and how often it was mounted.
fn head_of(image: &Image) -> [u8; 2] {
    [byte_at(image, 0, 11), byte_at(image, 0, 23)]
}

/// The same after a whole mount.
fn next_head(image: &Image) -> [u8; 2] {
    [2, byte_at(image, 0, 23).saturating_add(1)]
}

fn need(holds: bool, why: &'static str) -> Result<(), Fail> {
    if holds { Ok(()) } else { Err(why.into()) }
}

/// A check finds a tree and writes nothing.
fn expect_check(alloc: Global, image: &Image) -> Result<(), Fail> {
    let mut disk = disk_of(alloc, copy_image(alloc, image)?, Stop::Never, NO_CALL)?;
    let answer = check(alloc, &mut disk);
    let is_unchanged = disk.into_inner().calls().is_empty();
    need(answer.is_ok() && is_unchanged, "a check")
}

/// What a mount returned and left, and how many writes and syncs it made.
#[derive(Drop)]
struct Left {
    answer: Result<u32, MountFault>,
    image: Image,
    steps: usize,
}

/// A mount of which the call of this kind and number fails.
fn mount(alloc: Global, before: &Image, failing: (CallKind, u64)) -> Result<Left, Fail> {
    let mut disk = disk_of(alloc, copy_image(alloc, before)?, Stop::Never, failing)?;
    let answer = try_mount(alloc, &mut disk);
    let mut device = disk.into_inner();
    Ok(Left {
        answer,
        steps: device.calls().len(),
        image: image_of(alloc, &mut device)?,
    })
}

/// A mount that crashes within this step.
fn crash(alloc: Global, before: &Image, step: u64) -> Result<CrashDevice, Fail> {
    let mut disk = disk_of(
        alloc,
        copy_image(alloc, before)?,
        Stop::Within(step),
        NO_CALL,
    )?;
    if try_mount(alloc, &mut disk) == Err(MountFault::Device) {
        Ok(disk.into_inner())
    } else {
        Err("no crash".into())
    }
}

/// What is on the sectors when this lands.
pub(super) fn land(
    alloc: Global,
    crashed: &CrashDevice,
    landing: &[Landed],
) -> Result<Image, Fail> {
    let mut device = crashed.landed(alloc, landing)?;
    image_of(alloc, &mut device)
}

/// A tree, and one volume of each place at which it was found.
#[derive(Drop)]
struct Trial {
    alloc: Global,
    tree: Image,
    found: Vec<(Place, Image)>,
}

impl Trial {
    fn new(alloc: Global, image: Image) -> Result<Trial, Fail> {
        let (_, tree) = read_image(alloc, &image)?;
        let mut trial = Trial {
            alloc,
            tree,
            found: Vec::new(alloc),
        };
        let before = copy_image(alloc, &image)?;
        trial.take(&before, image)?;
        Ok(trial)
    }

    /// The same tree is on what a mount left, in the version and with the count that it had, or in
    /// version 2 with the next count.
    fn expect(&self, before: &Image, left: &Image) -> Result<Place, Fail> {
        let (place, tree) = read_image(self.alloc, left)?;
        let head = head_of(left);
        let is_between = head == head_of(before) || head == next_head(before);
        if is_between && tree.as_slice() == self.tree.as_slice() {
            Ok(place)
        } else {
            Err("another tree or count".into())
        }
    }

    /// A whole mount ended in version 2, without a mark and with the next count.
    fn expect_end(&self, before: &Image, left: &Left) -> Result<(), Fail> {
        let [_, mark, _] = self.expect(before, &left.image)?;
        let [version, count] = next_head(before);
        let is_mounted = left.answer == Ok(u32::from(count));
        need(
            is_mounted && mark == 0 && head_of(&left.image) == [version, count],
            "no end",
        )
    }

    /// The whole mount. Returns how many writes and syncs it takes.
    fn finish(&self, before: &Image) -> Result<usize, Fail> {
        let left = mount(self.alloc, before, NO_CALL)?;
        self.expect_end(before, &left)?;
        Ok(left.steps)
    }

    /// What a mount left. A check takes the first one of each place.
    fn take(&mut self, before: &Image, left: Image) -> Result<(), Fail> {
        let place = self.expect(before, &left)?;
        if self.found.iter().any(|(known, _)| *known == place) {
            return Ok(());
        }
        expect_check(self.alloc, &left)?;
        Ok(self.found.push((place, left))?)
    }

    /// What lands of a mount that crashed.
    fn take_each(
        &mut self,
        before: &Image,
        crashed: &CrashDevice,
        landings: &[Vec<Landed>],
    ) -> Result<(), Fail> {
        for landing in landings {
            self.take(before, land(self.alloc, crashed, landing)?)?;
        }
        Ok(())
    }

    /// A mount that crashes within this step, and at most `most` of the landings. What a crash
    /// before a step leaves is among what one within it may leave.
    fn crash(&mut self, before: &Image, step: u64, most: usize) -> Result<(), Fail> {
        let crashed = crash(self.alloc, before, step)?;
        let landings = landings(self.alloc, &crashed.unsynced(self.alloc)?)?;
        let some = landings.get(..most).unwrap_or(&landings);
        self.take_each(before, &crashed, some)
    }

    /// The mount of a volume crashes in each step, and ends.
    fn crash_each(&mut self, before: &Image, most: usize) -> Result<(), Fail> {
        for step in 0..self.finish(before)? as u64 {
            self.crash(before, step, most)?;
        }
        Ok(())
    }

    /// So do the mounts of what crashes left, until nothing more is found.
    fn crash_all(&mut self) -> Result<(), Fail> {
        for next in 0..MAX_PLACES {
            let Some((_, image)) = self.found.get(next) else {
                return Ok(());
            };
            let before = copy_image(self.alloc, image)?;
            self.crash_each(&before, if next == 0 { usize::MAX } else { FEW })?;
        }
        Err("too many places".into())
    }

    /// Whether it was found in this version with this mark.
    fn has(&self, version: u8, mark: u8) -> bool {
        self.found
            .iter()
            .any(|([one, other, _], _)| *one == version && *other == mark)
    }

    /// A mount of which this call fails, or none if there is no such call. After it the next mount
    /// ends it all.
    fn fail(&self, before: &Image, kind: CallKind, number: u64) -> Result<bool, Fail> {
        let left = mount(self.alloc, before, (kind, number))?;
        if left.answer == Err(MountFault::Device) {
            self.expect(before, &left.image)?;
            self.finish(&left.image)?;
            return Ok(true);
        }
        self.expect_end(before, &left)?;
        Ok(false)
    }

    /// One call of this kind fails, each in its turn. Returns how many there are.
    fn fail_each(&self, before: &Image, kind: CallKind) -> Result<usize, Fail> {
        for number in 0..MAX_CALLS {
            if !self.fail(before, kind, number as u64)? {
                return Ok(number);
            }
        }
        Err("too many calls".into())
    }

    /// Each call.
    fn fail_all(&self, before: &Image) -> Result<(), Fail> {
        let writes = self.fail_each(before, CallKind::Write)?;
        let syncs = self.fail_each(before, CallKind::Sync)?;
        let reads = self.fail_each(before, CallKind::Read)?;
        let steps = self.finish(before)?;
        need(
            writes.saturating_add(syncs) == steps && reads > 0,
            "another number of calls",
        )
    }
}

/// The volume of `filling` with 16 nodes, as a migration that has moved `moved` places left it.
fn moving(alloc: Global, moved: u8) -> Result<Image, AllocError> {
    let mut image = volume_image(alloc, OF_16_NODES)?;
    take_back(&mut image, 16, moved);
    Ok(image)
}

/// That with 64 nodes, of which none was moved.
fn unmoved(alloc: Global) -> Result<Image, AllocError> {
    let mut image = volume_image(alloc, OF_64_NODES)?;
    take_back(&mut image, 64, 0);
    Ok(image)
}

/// The same tree is on a volume of version 1 whatever was moved, and each is migrated.
#[test]
fn a_migration_goes_on_from_each_mark(rt: HostRuntime) -> Result<(), Fail> {
    let trial = Trial::new(rt.alloc(), volume_image(rt.alloc(), OF_16_NODES)?)?;
    for moved in 0..17 {
        let image = moving(rt.alloc(), moved)?;
        expect_check(rt.alloc(), &image)?;
        trial.finish(&image)?;
    }
    Ok(())
}

/// A migration of `nodes` places was found with exactly these marks of each version.
fn expect_marks(trial: &Trial, nodes: u8) -> Result<(), Fail> {
    for mark in 0..=u8::MAX {
        let is_end = mark == 0 || mark == nodes;
        let is_first = trial.has(1, mark) == (is_end || mark == 47);
        need(is_first && trial.has(2, mark) == is_end, "another mark")?;
    }
    Ok(())
}

/// The mount of a volume crashes in each step.
fn try_crashes(alloc: Global, image: &Image, nodes: u8) -> Result<(), Fail> {
    let mut trial = Trial::new(alloc, copy_image(alloc, image)?)?;
    trial.crash_each(image, FEW)?;
    expect_marks(&trial, nodes)
}

/// A set commit record has the root at first, and its place holds something else.
fn hide_root(image: &mut Image) {
    if image.len() > NODES {
        image.swap(2, NODES);
    }
    put_all(image, "@1 000000010000000100000094");
}

/// Each landing of the first mount's crashes, and the mounts of what they leave.
#[test]
fn crashes_of_a_migration(rt: HostRuntime) -> Result<(), Fail> {
    let mut image = unmoved(rt.alloc())?;
    hide_root(&mut image);
    let mut trial = Trial::new(rt.alloc(), image)?;
    trial.crash_all()?;
    expect_marks(&trial, 64)
}

/// All of the 64 nodes are used, so that a transaction has the most sectors that it may have.
#[test]
fn crashes_of_the_migration_of_64_nodes(rt: HostRuntime) -> Result<(), Fail> {
    try_crashes(rt.alloc(), &volume_image(rt.alloc(), WIDE)?, 64)
}

/// Holes, files of several runs and long lists.
#[test]
fn crashes_of_the_migration_of_a_filled_volume(rt: HostRuntime) -> Result<(), Fail> {
    try_crashes(rt.alloc(), &volume_image(rt.alloc(), FILLED)?, 60)
}

#[test]
fn failing_calls_of_a_migration(rt: HostRuntime) -> Result<(), Fail> {
    let image = unmoved(rt.alloc())?;
    Trial::new(rt.alloc(), copy_image(rt.alloc(), &image)?)?.fail_all(&image)
}
