//! Each call once, and its refusals.

use super::super::drivers::{memory, stopping};
use super::SECTORS;
use super::held::{Held, Step};
use disk::{Device, Stop};
use journal::JournalFault;
use std::alloc::{AllocError, Global};
use std::process::Abort;
use std::test::Fail;

/// Why a call is refused.
#[derive(Clone, Copy, PartialEq, Eq)]
enum Refused {
    Fault,
    Down,
    TooMany,
    Else,
}

fn reason(fault: JournalFault) -> Refused {
    match fault {
        JournalFault::Fault => Refused::Fault,
        JournalFault::Down => Refused::Down,
        JournalFault::TooMany => Refused::TooMany,
        _ => Refused::Else,
    }
}

fn answer<D: Device>(held: &mut Held<D>, alloc: Global, step: Step<'_>) -> Result<u8, Refused> {
    match held.take(alloc, step) {
        Ok(byte) => Ok(byte),
        Err(fault) => Err(reason(fault)),
    }
}

/// A call, and what it returns.
type Row<'a> = (Step<'a>, Result<u8, Refused>);

fn play<D: Device>(rt: &impl Abort, alloc: Global, held: &mut Held<D>, rows: &[Row<'_>]) {
    for (i, (step, wanted)) in rows.iter().enumerate() {
        assert!(rt; answer(held, alloc, *step) == *wanted, "row {i}");
    }
}

/// `count` sectors from this one on.
fn sectors_from(alloc: Global, first: u32, count: u32) -> Result<Vec<u32>, AllocError> {
    let mut sectors = Vec::new(alloc);
    for i in 0..count {
        sectors.push(first.saturating_add(i))?;
    }
    Ok(sectors)
}

const KEPT: [Row<'static>; 5] = [
    (Step::Byte(0), Ok(0)),
    (Step::Superblock(2), Ok(0)),
    (Step::Byte(0), Ok(2)),
    (Step::Flush, Ok(0)),
    (Step::Byte(0), Ok(2)),
];

/// Two transactions, which are read before a flush and after it, and flushed again.
const READ: [Row<'static>; 10] = [
    (Step::Apply(&[200, 201], 1), Ok(0)),
    (Step::Apply(&[202, 201], 2), Ok(0)),
    (Step::Byte(200), Ok(1)),
    (Step::Byte(201), Ok(2)),
    (Step::Byte(202), Ok(2)),
    (Step::Flush, Ok(0)),
    (Step::Byte(200), Ok(1)),
    (Step::Byte(201), Ok(2)),
    (Step::Byte(202), Ok(2)),
    (Step::Flush, Ok(0)),
];

#[test]
fn calls_are_answered(rt: HostRuntime) -> Result<(), Fail> {
    for rows in [KEPT.as_slice(), &READ] {
        let mut held = Held::mount(rt.alloc(), memory(rt.alloc(), SECTORS)?)?;
        play(&rt, rt.alloc(), &mut held, rows);
    }
    Ok(())
}

const DOWN: [Row<'static>; 5] = [
    (Step::Superblock(2), Err(Refused::Fault)),
    (Step::Superblock(2), Err(Refused::Down)),
    (Step::Flush, Err(Refused::Down)),
    (Step::Byte(0), Err(Refused::Down)),
    (Step::Apply(&[98], 1), Err(Refused::Down)),
];

#[test]
fn a_journal_stays_down(rt: HostRuntime) -> Result<(), Fail> {
    let device = stopping(rt.alloc(), SECTORS, Stop::Before(1))?;
    let mut held = Held::mount(rt.alloc(), device)?;
    play(&rt, rt.alloc(), &mut held, &DOWN);
    Ok(())
}

#[test]
fn a_transaction_has_48_sectors_at_most(rt: HostRuntime) -> Result<(), Fail> {
    let mut held = Held::mount(rt.alloc(), memory(rt.alloc(), SECTORS)?)?;
    let fit = sectors_from(rt.alloc(), 98, 48)?;
    let many = sectors_from(rt.alloc(), 98, 49)?;
    let rows = [
        (Step::Apply(&fit, 1), Ok(0)),
        (Step::Apply(&many, 2), Err(Refused::TooMany)),
        (Step::Byte(98), Ok(1)),
        (Step::Byte(146), Ok(0)),
    ];
    play(&rt, rt.alloc(), &mut held, &rows);
    Ok(())
}

#[test]
fn transactions_of_the_same_sectors_become_one(rt: HostRuntime) -> Result<(), Fail> {
    let mut device = stopping(rt.alloc(), SECTORS, Stop::Never)?;
    {
        let mut held = Held::mount(rt.alloc(), &mut device)?;
        for byte in 1..200 {
            held.take(rt.alloc(), Step::Apply(&[200, 201], byte))?;
        }
        let rows = [
            (Step::Flush, Ok(0)),
            (Step::Byte(201), Ok(199)),
            (Step::Flush, Ok(0)),
        ];
        play(&rt, rt.alloc(), &mut held, &rows);
    }
    // the mount's sync; two sectors to the payload, the gate, and two syncs
    assert_eq!(rt; device.steps(), 6);
    Ok(())
}

#[test]
fn a_list_that_would_not_fit_is_flushed_first(rt: HostRuntime) -> Result<(), Fail> {
    let mut device = stopping(rt.alloc(), SECTORS, Stop::Never)?;
    {
        let mut held = Held::mount(rt.alloc(), &mut device)?;
        for first in [98, 146, 194] {
            let sectors = sectors_from(rt.alloc(), first, 48)?;
            held.take(rt.alloc(), Step::Apply(&sectors, 7))?;
        }
        let rows = [(Step::Byte(98), Ok(7)), (Step::Byte(241), Ok(7))];
        play(&rt, rt.alloc(), &mut held, &rows);
    }
    assert_eq!(rt; device.steps(), 1 + 96 + 3);
    Ok(())
}
