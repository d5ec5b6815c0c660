//! READDIR.

ghost use Rattle.std.specs.Prelude.{◌≡◌, ◌==◌, ◌&&◌, bytes_eq, not, replicate};
ghost use Rattle.model.specs.Operations.ReadDir.{asks_errors};
ghost use Rattle.model.specs.Operations.SetAttr.{asks_acls};

use crate::fault::FsFault;
use crate::fs::Fs;
use crate::nodes::is_directory;
use crate::rights::grants;
use acl_eval::{Cred, Mask};
use directory::{Entry, ListAfter};
use disk::Device;
use model_tree::status::Status;
use node_table::CachedNode;
use std::alloc::AllocError;
use wire_attributes::{Attribute, AttributesAnswer, ListedAttributes, ListedEntry, is_asked};

/// What a page takes besides its entries: the verifier, the bool that ends them, and the one that
/// says whether this is the end.
const EMPTY_PAGE: usize = 16;

/// What READDIR asks for (RFC 8881, section 18.23). Its dircount is ignored.
#[derive(Clone, Copy)]
pub struct Listing<'a> {
    /// The directory's number.
    pub directory: u64,
    /// The cookie of the last entry that was listed, or 0.
    pub cookie: u64,
    /// The verifier that came with the cookie.
    pub verifier: [u8; 8],
    /// How many bytes the result may take, after its status.
    pub max_count: u32,
    /// The bitmap of the attributes that are asked for of each entry, of any length.
    pub asked: &'a [u32],
}

/// A page of a directory: its entries by rising cookie, and whether none is left after them.
#[derive(Drop)]
pub struct Page<'a> {
    pub entries: Vec<ListedEntry<'a>>,
    pub is_end: bool,
}

/// Whether the ACL of each entry is asked for.
fn asks_acls(asked: &[u32]) -> bool
    ensures { result ≡ asks_acls asked.now }
{
    is_asked(asked, Attribute::Acl.number())
}

/// Whether the call is refused if the ACL of an entry after the cookie may not be read: ACLs are
/// asked for, and rdattr_error, by which an entry would say so itself, is not.
fn must_read_acls(asked: &[u32]) -> bool
    ensures { result ≡ (asks_acls asked.now && not (asks_errors asked.now)) }
{
    asks_acls(asked) && !is_asked(asked, Attribute::RdattrError.number())
}

/// Whether an entry whose ACL may not be read shows only rdattr_error: both are asked for. If only
/// ACLs are, there is no such entry, since `permit_read_dir` refused the call.
fn hides_unreadable(asked: &[u32]) -> bool
    ensures { result ≡ (asks_acls asked.now && asks_errors asked.now) }
{
    asks_acls(asked) && is_asked(asked, Attribute::RdattrError.number())
}

impl Listing<'_> {
    /// Whether a cookie comes with a verifier that is not 0.
    fn has_other_verifier(&self) -> bool
        ensures { result ≡ (not (self.now.cookie == 0)
            && not (bytes_eq self.now.verifier (replicate 8 0))) }
    {
        self.cookie != 0 && self.verifier != [0; 8]
    }
}

#[tactic(auto, unfolding(crate::specs::Views::fs_of))]
impl<D: Device> Fs<D> {
    ghost use Rattle.std.specs.Prelude.{true, ℕ, map, IfOk, IsErrOf};
    ghost use Rattle.std.specs.List.{AllByRecursion, list_all};
    ghost use Rattle.directory.specs.Listing.{by_stamp};
    ghost use Rattle.directory.specs.Records.{IsRecord};
    ghost use Rattle.directory.specs.Rest.{record_at, rest_of};
    ghost use Rattle.fs.specs.Views.{fs_of};
    ghost use Rattle.fs.specs.Listing.{Lists, PageFits, list_arguments, list_refusals, page_of, page_view};
    ghost use Rattle.fs.specs.Listing.{shown_attributes, shown_entry};
    ghost use Rattle.fs.specs.Operations.{IsOn};
    ghost use Rattle.model_tree.specs.Trees.Keyed.{at};
    ghost use Rattle.model.specs.Operations.ReadDir.{may_read_acl};
    ghost use Rattle.model.specs.Operations.Step.{State};
    ghost use Rattle.model_tree.specs.Trees.Tree.{names_at};
    ghost use Rattle.wire_attributes.specs.Given.{IsChecked};
    ghost use Rattle.wire_attributes.specs.Listed.{EntryFits, ListedFits, entry_view, listed_view};

    /// READDIR (RFC 8881, section 18.23): a page of a directory, with the entries after the cookie
    /// that the result has room for. The entries borrow the names and the nodes.
    ///
    /// # Errors
    ///
    /// Refused by the first of these that holds: STALE, NOTDIR, ACCESS without the right to list
    /// the directory, NOT_SAME if a cookie comes with a verifier that is not 0, ACCESS if ACLs are
    /// asked for without rdattr_error and that of an entry after the cookie may not be read, and
    /// TOOSMALL if there is no room for the first entry, or for an empty page.
    pub fn read_dir<'a>(&'a self, cred: &Cred, listing: Listing<'a>) -> Result<Page<'a>, FsFault>
        ensures step { (state : State) (now dir_count : ℕ)
            → IsOn (fs_of self.entry.now) cred.now listing.entry.directory state
            → Lists (fs_of self.entry.now) state now (list_arguments listing.entry dir_count)
            result }
        ensures fits { IfOk result PageFits }
        ensures down { (fs_of self.entry.now).volume.is_down ≡ true
            → IsErrOf result FsFault.Down }
    {
        if self.is_down() {
            return Err(FsFault::Down);
        }
        let cached = self.permit_read_dir(cred, &listing)?;
        let bytes = (listing.max_count as usize).min(self.volume.limits().transfer_bytes);
        if bytes < EMPTY_PAGE {
            return Err(FsFault::Status(Status::TooSmall));
        }
        let names = cached.names.list_after(listing.cookie);
        let hides = hides_unreadable(listing.asked);
        let page = self.fill(cred, names, listing.asked, hides, bytes - EMPTY_PAGE)?;
        if page.entries.is_empty() && !page.is_end {
            return Err(FsFault::Status(Status::TooSmall));
        }
        Ok(page)
    }

    /// The tests before those of the page, and the directory.
    fn permit_read_dir(&self, cred: &Cred, listing: &Listing<'_>) -> Result<&CachedNode, Status>
        ensures tests { (dir_count : ℕ)
            → IsChecked (list_refusals (fs_of self.entry.now).volume.tree
            cred.now listing.now.directory (list_arguments listing.now dir_count)) result }
        ensures names { IfOk result (λ cached. by_stamp cached.now.names
            ≡ names_at (fs_of self.entry.now).volume.tree listing.now.directory) }
        ensures each { IfOk result (λ cached. AllByRecursion IsRecord cached.now.names) }
    {
        let Some(cached) = self.volume.node(listing.directory) else {
            return Err(Status::Stale);
        };
        if !is_directory(cached) {
            return Err(Status::NotDir);
        }
        if !grants(cached, cred, Mask::READ_DATA) {
            return Err(Status::Access);
        }
        if listing.has_other_verifier() {
            return Err(Status::NotSame);
        }
        let names = cached.names.list_after(listing.cookie);
        if must_read_acls(listing.asked) && !self.may_read_acls(cred, names) {
            return Err(Status::Access);
        }
        Ok(cached)
    }

    /// Whether a caller may read the ACL of a node: not if it is gone.
    fn may_read_acl(&self, cred: &Cred, number: u64) -> bool
        ensures { result ≡ may_read_acl cred.now (at number (fs_of self.now).volume.tree) }
    {
        match self.volume.node(number) {
            Some(cached) => grants(cached, cred, Mask::READ_ACL),
            None => false,
        }
    }

    /// Whether a caller may read the ACL of the node of each of these names.
    fn may_read_acls(&self, cred: &Cred, names: ListAfter<'_>) -> bool
        ensures { result ≡ list_all (λ name. may_read_acl cred.now
            (at name.1.number (fs_of self.now).volume.tree)) (rest_of names.entry) }
    {
        for entry in names {
            if !self.may_read_acl(cred, entry.number) {
                return false;
            }
        }
        true
    }

    /// The page of these names, up to `room` bytes. `hides_unreadable` says whether an entry whose
    /// ACL may not be read shows only rdattr_error.
    fn fill<'a>(
        &'a self,
        cred: &Cred,
        names: ListAfter<'a>,
        asked: &'a [u32],
        hides_unreadable: bool,
        room: usize,
    ) -> Result<Page<'a>, AllocError>
        requires { AllByRecursion IsRecord (rest_of names) }
        ensures page { IfOk result (λ page. page_view page ≡ page_of room (map
            (shown_entry (fs_of self.entry.now).volume.limits
            (fs_of self.entry.now).volume.tree cred.now hides_unreadable asked.entry.now)
            (rest_of names.entry))) }
        ensures fits { IfOk result PageFits }
    {
        let mut room = room;
        let mut entries = Vec::new(self.alloc);
        for name in names {
            let entry = self.listed(cred, name, asked, hides_unreadable);
            let size = 4 + entry.size();
            if room < size {
                return Ok(Page {
                    entries,
                    is_end: false,
                });
            }
            room -= size;
            entries.push(entry)?;
        }
        Ok(Page {
            entries,
            is_end: true,
        })
    }

    /// The entry of a name.
    fn listed<'a>(
        &'a self,
        cred: &Cred,
        name: &'a Entry,
        asked: &'a [u32],
        hides_unreadable: bool,
    ) -> ListedEntry<'a>
        requires { IsRecord (record_at name) }
        ensures view { entry_view result ≡ shown_entry (fs_of self.entry.now).volume.limits
            (fs_of self.entry.now).volume.tree cred.now hides_unreadable asked.entry.now
            (record_at name.entry) }
        ensures fits { EntryFits result }
    {
        ListedEntry {
            cookie: name.stamp,
            name: &name.name,
            attributes: self.listed_attributes(cred, name.number, asked, hides_unreadable),
        }
    }

    /// The attributes of the node of this number, as an entry shows them.
    fn listed_attributes<'a>(
        &'a self,
        cred: &Cred,
        number: u64,
        asked: &'a [u32],
        hides_unreadable: bool,
    ) -> ListedAttributes<'a>
        ensures view { listed_view result ≡ shown_attributes (fs_of self.entry.now).volume.limits
            cred.now hides_unreadable asked.entry.now number
            (at number (fs_of self.entry.now).volume.tree) }
        ensures fits { ListedFits result }
    {
        if hides_unreadable && !self.may_read_acl(cred, number) {
            return ListedAttributes::Unreadable;
        }
        match self.volume.node(number) {
            Some(cached) => ListedAttributes::Readable(AttributesAnswer {
                node: self.metadata(cached),
                asked,
            }),
            None => ListedAttributes::Gone,
        }
    }
}
