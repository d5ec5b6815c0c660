//! Volumes' files: what is in one, and which are refused.

use super::drivers::{byte_of, fill, sync};
use disk::{CallKind, Counts, Device, DiskFault, Failure, FileDevice};
use std::alloc::AllocGlobal;
use std::fs;
use std::fs::OpenOptions;
use std::io::ErrorKind;
use std::os::unix::fs::MetadataExt;
use std::process::Abort;
use std::test::Fail;

/// A call of a device.
#[derive(Clone, Copy)]
enum Ask {
    Sectors,
    Failures,
    Sync,
    /// Fills a sector with a byte.
    Fill(u32, u8),
    /// The byte that a sector is filled with, or 255.
    Byte(u32),
}

/// What a call returns: a number, 0 if it asks for none.
type Answer = Result<u64, DiskFault>;

fn answer<D: Device>(device: &mut D, ask: Ask) -> Answer {
    match ask {
        Ask::Sectors => return Ok(u64::from(device.sectors())),
        Ask::Failures => return Ok(device.failures()),
        Ask::Byte(n) => return Ok(u64::from(byte_of(device, n)?)),
        Ask::Sync => sync(device)?,
        Ask::Fill(n, byte) => fill(device, n, byte)?,
    }
    Ok(0)
}

fn play<D: Device>(rt: &impl Abort, device: &mut D, rows: &[(Ask, Answer)]) {
    for (i, (ask, wanted)) in rows.iter().enumerate() {
        let found = answer(device, *ask);
        assert!(rt; found == *wanted, "row {i}: {found:?}");
    }
}

fn created(rt: &HostRuntime, path: &str, sectors: u32) -> Result<FileDevice, DiskFault> {
    FileDevice::create(rt, rt.alloc(), path, sectors)
}

fn opened(rt: &HostRuntime, path: &str) -> Result<FileDevice, DiskFault> {
    FileDevice::open(rt, rt.alloc(), path)
}

fn opened_to_read(rt: &HostRuntime, path: &str) -> Result<FileDevice, DiskFault> {
    FileDevice::open_to_read(rt, rt.alloc(), path)
}

// a file of 5,000 bytes, each 1
fn write_short(rt: &HostRuntime, path: &str) -> Result<(), DiskFault> {
    match fs::write(rt, path, [1; 5000]) {
        Ok(()) => Ok(()),
        Err(_) => Err(DiskFault::Open),
    }
}

fn remove(rt: &HostRuntime, path: &str) -> Result<(), DiskFault> {
    match fs::remove_file(rt, path) {
        Ok(()) => Ok(()),
        Err(_) => Err(DiskFault::Open),
    }
}

const WRITTEN: [(Ask, Answer); 4] = [
    (Ask::Sectors, Ok(3)),
    (Ask::Fill(2, 9), Ok(0)),
    (Ask::Sync, Ok(0)),
    (Ask::Fill(3, 9), Err(DiskFault::Range)),
];

const OPENED: [(Ask, Answer); 5] = [
    (Ask::Sectors, Ok(3)),
    (Ask::Byte(1), Ok(0)),
    (Ask::Byte(2), Ok(9)),
    (Ask::Byte(3), Err(DiskFault::Range)),
    (Ask::Failures, Ok(0)),
];

#[test]
fn a_file_keeps_what_is_written(rt: HostRuntime) -> Result<(), Fail> {
    let path = "disk-file-round-trip.img";
    {
        let mut device = created(&rt, path, 3)?;
        play(&rt, &mut device, &WRITTEN);
    }
    let mut device = opened(&rt, path)?;
    assert!(rt; device.is_whole());
    play(&rt, &mut device, &OPENED);
    remove(&rt, path)?;
    Ok(())
}

// the bytes that the first sectors are filled with
fn bytes_of<D: Device>(device: &mut D) -> Result<[u8; 4], DiskFault> {
    let mut bytes = [0; 4];
    for n in 0..4_u32 {
        bytes[n as usize] = byte_of(device, n)?;
    }
    Ok(bytes)
}

// writes sectors of a new file, and reads them before a sync and after it
fn write_and_read(
    rt: &HostRuntime,
    path: &str,
    writes: &[(u32, u8)],
) -> Result<[[u8; 4]; 2], DiskFault> {
    let mut device = created(rt, path, 4)?;
    for (n, byte) in writes {
        fill(&mut device, *n, *byte)?;
    }
    let before = bytes_of(&mut device)?;
    sync(&mut device)?;
    Ok([before, bytes_of(&mut device)?])
}

// what is written, by its sector, and what is then in the first sectors
const GATHERED: [(&[(u32, u8)], [u8; 4]); 6] = [
    (&[], [0, 0, 0, 0]),
    // neighbours, by rising number
    (&[(0, 1), (1, 2), (2, 3)], [1, 2, 3, 0]),
    // by falling number, and in no order
    (&[(3, 1), (2, 2), (1, 3), (0, 4)], [4, 3, 2, 1]),
    (&[(2, 1), (0, 2), (3, 3), (1, 4)], [2, 4, 1, 3]),
    // some again, within what is gathered
    (
        &[(1, 1), (2, 2), (3, 3), (1, 4), (3, 5), (2, 6)],
        [0, 4, 6, 5],
    ),
    // some again, after others that are no neighbours
    (
        &[(1, 1), (2, 2), (0, 3), (1, 4), (3, 5), (2, 6)],
        [3, 4, 6, 5],
    ),
];

#[test]
fn a_file_gives_what_was_written_last(rt: HostRuntime) -> Result<(), Fail> {
    let path = "disk-file-gathered.img";
    for (writes, wanted) in GATHERED {
        let _ = remove(&rt, path);
        assert_eq!(rt; write_and_read(&rt, path, writes)?, [wanted; 2]);
        assert_eq!(rt; bytes_of(&mut opened(&rt, path)?)?, wanted);
    }
    remove(&rt, path)?;
    Ok(())
}

// fails if a sector is not filled with its number
fn read_numbers(device: &mut FileDevice) -> Result<(), Fail> {
    for n in 0..200_u8 {
        if byte_of(device, u32::from(n))? != n {
            return Err("another byte".into());
        }
    }
    Ok(())
}

#[test]
fn a_file_takes_any_number_of_neighbours(rt: HostRuntime) -> Result<(), Fail> {
    let path = "disk-file-neighbours.img";
    {
        let mut device = created(&rt, path, 200)?;
        for n in 0..200_u8 {
            fill(&mut device, u32::from(n), n)?;
        }
        read_numbers(&mut device)?;
        sync(&mut device)?;
    }
    read_numbers(&mut opened(&rt, path)?)?;
    remove(&rt, path)?;
    Ok(())
}

#[test]
fn a_file_that_shrank_fails_counts_and_remembers(rt: HostRuntime) -> Result<(), Fail> {
    let path = "disk-file-shrank.img";
    let mut device = created(&rt, path, 2)?;
    OpenOptions::new()
        .write(true)
        .open(&rt, path)?
        .set_len(4096)?;
    play(
        &rt,
        &mut device,
        &[
            (Ask::Byte(0), Ok(0)),
            (Ask::Byte(1), Err(DiskFault::Fault)),
            (Ask::Failures, Ok(1)),
            (Ask::Sync, Ok(0)),
        ],
    );
    let (call, kind) = (CallKind::Read, ErrorKind::UnexpectedEof);
    assert_eq!(rt; device.last_failure(), Some(Failure { call, kind }));
    let counts = Counts {
        reads: 2,
        writes: 0,
        syncs: 1,
    };
    assert_eq!(rt; device.counts(), counts);
    remove(&rt, path)?;
    Ok(())
}

#[test]
fn only_its_owner_may_use_a_new_file(rt: HostRuntime) -> Result<(), Fail> {
    let path = "disk-file-mode.img";
    let _device = created(&rt, path, 1)?;
    assert_eq!(rt; fs::metadata(&rt, path)?.mode() & 0o777, 0o600);
    remove(&rt, path)?;
    Ok(())
}

#[test]
fn a_file_has_one_device_that_writes_or_some_that_read(rt: HostRuntime) -> Result<(), Fail> {
    let path = "disk-file-locked.img";
    {
        let mut writer = created(&rt, path, 3)?;
        assert!(rt; matches!(created(&rt, path, 1), Err(DiskFault::Open)));
        assert!(rt; matches!(opened(&rt, path), Err(DiskFault::Open)));
        assert!(rt; matches!(opened_to_read(&rt, path), Err(DiskFault::Open)));
        play(&rt, &mut writer, &WRITTEN);
    }
    let mut reader = opened_to_read(&rt, path)?;
    let _other = opened_to_read(&rt, path)?;
    assert!(rt; matches!(opened(&rt, path), Err(DiskFault::Open)));
    play(&rt, &mut reader, &OPENED);
    assert_eq!(rt; fill(&mut reader, 0, 1), Err(DiskFault::Fault));
    remove(&rt, path)?;
    Ok(())
}

#[test]
fn a_file_with_part_of_a_sector_is_not_whole(rt: HostRuntime) -> Result<(), Fail> {
    let path = "disk-file-short.img";
    write_short(&rt, path)?;
    let mut device = opened(&rt, path)?;
    assert!(rt; !device.is_whole());
    play(
        &rt,
        &mut device,
        &[(Ask::Sectors, Ok(1)), (Ask::Byte(0), Ok(1))],
    );
    remove(&rt, path)?;
    Ok(())
}

#[test]
fn a_file_that_is_not_there_is_refused(rt: HostRuntime) {
    for path in ["disk-no-such-file.img", "."] {
        assert!(rt; matches!(opened(&rt, path), Err(DiskFault::Open)), "{path}");
    }
}
