//! A list in chunks beside a `Vec`: the same calls give the same entries, and a copy keeps its own.

use super::drivers::Random;
use chunks::Chunks;
use std::alloc::AllocGlobal;
use std::process::Abort;
use std::test::Fail;

/// Makes one change to both.
fn change(list: &mut Chunks<u64>, beside: &mut Vec<u64>, random: &mut Random) -> Result<(), Fail> {
    let len = list.len().min(beside.len());
    let entry = random.0;
    let place = random.below(len.saturating_add(1));
    match random.below(12) {
        0 => {
            list.push(entry)?;
            beside.push(entry)?;
        }
        1 if place < len => {
            list.set(place, entry)?;
            beside[place] = entry;
        }
        2 if place < len => {
            list.remove(place)?;
            beside.remove(place);
        }
        3 => {
            list.pop()?;
            beside.pop();
        }
        _ => {
            list.insert(place, entry)?;
            beside.insert(place, entry)?;
        }
    }
    Ok(())
}

fn assert_same(rt: &impl Abort, list: &Chunks<u64>, beside: &[u64]) {
    assert_eq!(rt; list.len(), beside.len());
    for (place, entry) in beside.iter().enumerate() {
        assert_eq!(rt; list.get(place), Some(*entry), "{place}");
    }
    assert_eq!(rt; list.get(beside.len()), None);
}

#[test]
fn a_list_is_what_a_vec_is(rt: HostRuntime) -> Result<(), Fail> {
    let mut list = Chunks::new(rt.alloc());
    let mut beside = Vec::new(rt.alloc());
    let mut random = Random(1);
    for _ in 0..3000 {
        change(&mut list, &mut beside, &mut random)?;
    }
    let copy = list.try_clone()?;
    let copied = Vec::from_slice(rt.alloc(), &beside)?;
    for _ in 0..3000 {
        change(&mut list, &mut beside, &mut random)?;
    }
    assert_same(&rt, &list, &beside);
    assert_same(&rt, &copy, &copied);
    Ok(())
}

#[test]
fn a_list_is_emptied_from_either_end(rt: HostRuntime) -> Result<(), Fail> {
    let mut list = Chunks::new(rt.alloc());
    for entry in 0..2500u64 {
        list.push(entry)?;
    }
    for first in 0..1250u64 {
        if list.len() > 1 {
            assert_eq!(rt; list.remove(0)?, first);
            assert_eq!(rt; list.pop()?, Some(2499 - first));
        }
    }
    assert_same(&rt, &list, &[]);
    assert_eq!(rt; list.pop()?, None);
    Ok(())
}
