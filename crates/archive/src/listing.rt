//! Listings.

use crate::fault::ArchiveFault;
use crate::time::Moment;
use crate::view::View;
use acl_set::{mode_of, with_mode};
use model_tree::acl::Ace;
use model_tree::node::NodeKind;
use node_table::CachedNode;
use std::alloc::{AllocError, Global};
use std::io::Write;

/// The letters of a mode, and their bits.
const PERMISSIONS: [(u8, u32); 9] = [
    (b'r', 0o400),
    (b'w', 0o200),
    (b'x', 0o100),
    (b'r', 0o040),
    (b'w', 0o020),
    (b'x', 0o010),
    (b'r', 0o004),
    (b'w', 0o002),
    (b'x', 0o001),
];

/// Prints what a path leads to, or the names of the directory that it leads to, as `ls -l` does: a
/// line each, with a `+` after the mode if the access control list says more than that, owner and
/// group by number, the size in bytes (of a directory in names), the time in UTC, and the name.
///
/// # Errors
/// Path: NoEntry, NotDirectory; Io, Memory.
pub fn list<W: Write>(view: &View, path: &str, out: &mut W) -> Result<(), ArchiveFault> {
    let number = view.find(path)?;
    let node = view.node(number)?;
    if node.inode.kind == NodeKind::File {
        return write_line(view, number, path, out);
    }
    let mut names = Vec::new(view.alloc);
    for entry in node.names.list_after(0) {
        names.push((entry.name.as_slice(), entry.number))?;
    }
    names.sort()?;
    for (name, child) in names {
        let text = String::from_utf8_lossy(view.alloc, name)?;
        write_line(view, child, text.as_str(), out)?;
    }
    Ok(())
}

fn write_line<W: Write>(
    view: &View,
    number: u64,
    name: &str,
    out: &mut W,
) -> Result<(), ArchiveFault> {
    let inode = &view.node(number)?.inode;
    let letter = match inode.kind {
        NodeKind::File => '-',
        NodeKind::Directory => 'd',
    };
    let mode = mode_text(mode_of(inode.acl.as_slice()));
    let more = if plain_mode(view.alloc, view.node(number)?)?.is_some() {
        ' '
    } else {
        '+'
    };
    let mode = str::from_utf8(&mode).unwrap_or_default();
    let time = Moment(inode.time_modify);
    let (owner, group, size) = (inode.owner, inode.group, inode.size);
    write!(
        out,
        "{letter}{mode}{more} {owner:>5} {group:>5} {size:>8} {time} "
    )?;
    write_name(name, out)
}

/// Writes a name, with `?` for each control character, and a line feed.
fn write_name<W: Write>(name: &str, out: &mut W) -> Result<(), ArchiveFault> {
    for c in name.chars() {
        let shown = if c.is_control() { '?' } else { c };
        write!(out, "{shown}")?;
    }
    Ok(writeln!(out)?)
}

/// The permissions of a mode, as `rwxr-x---`.
fn mode_text(mode: u32) -> [u8; 9] {
    let mut text = [b'-'; 9];
    for (place, (letter, bit)) in text.iter_mut().zip(&PERMISSIONS) {
        if mode & *bit != 0 {
            *place = *letter;
        }
    }
    text
}

/// The mode of a node, if its list is just that of the mode.
pub(crate) fn plain_mode(alloc: Global, node: &CachedNode) -> Result<Option<u32>, AllocError> {
    let entries: &[Ace] = node.inode.acl.as_slice();
    let mode = mode_of(entries);
    match with_mode(alloc, node.inode.kind, &[], mode) {
        Ok(plain) if plain.as_slice() == entries => Ok(Some(mode)),
        Ok(_) => Ok(None),
        Err(_) => Err(AllocError),
    }
}
