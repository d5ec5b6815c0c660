//! The journal: that calls succeed, how many syncs they take, what is read once, and what a crash
//! within a format leaves. With the log before what transactions write, and with one after it.

mod behind;
mod caching;
mod calls;
mod formats;
mod gathering;
mod held;
mod unread;

/// The sectors of each device here: the fewest that a journal takes.
const SECTORS: u32 = 256;
