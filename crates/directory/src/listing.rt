//! Names by rising stamp.

ghost use Rattle.std.specs.Iterator.{YieldsFirstBy, item_count};
ghost use Rattle.directory.specs.Rest.{rest_of, record_at};

use crate::entry::Entry;
use crate::names::Names;

/// The names whose stamps are above a cookie, by rising stamp. Takes no memory: each next one is
/// searched for in the order.
#[derive(Drop)]
pub struct ListAfter<'a> {
    pub(crate) names: &'a Names,
    pub(crate) cookie: u64,
}

impl<'a> Iterator for ListAfter<'a> {
    type Item = &'a Entry;

    ghost next_gives = { YieldsFirstBy record_at rest_of };

    ghost remaining = { item_count rest_of };

    fn next(&mut self) -> Option<&'a Entry> {
        let entry = self.names.first_after(self.cookie)?;
        self.cookie = entry.stamp;
        Some(entry)
    }
}
