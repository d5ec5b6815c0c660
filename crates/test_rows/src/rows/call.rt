//! Calls, and the orders in which they may arrive.

use std::alloc::{AllocError, Global};

/// A record, how many operations run until its reply, and that reply.
#[derive(Drop)]
pub struct Call {
    pub connection: usize,
    pub record: Vec<u8>,
    pub turns: u32,
    pub reply: Vec<u8>,
}

/// In how many orders calls arrive: in each, up to four of them.
pub fn orders_of(count: usize) -> usize {
    match count {
        0 | 1 => 1,
        2 => 2,
        3 => 6,
        _ => 24,
    }
}

/// The calls in the order of this number.
pub fn in_order<'a>(
    alloc: Global,
    calls: &'a [Call],
    order: usize,
) -> Result<Vec<&'a Call>, AllocError> {
    let mut rest: Vec<&'a Call> = calls.iter().collect(alloc)?;
    let mut ordered = Vec::new(alloc);
    let mut number = order;
    for _ in calls {
        let count = rest.len();
        if count > 0 {
            ordered.push(rest.remove(number % count))?;
            number /= count;
        }
    }
    Ok(ordered)
}
