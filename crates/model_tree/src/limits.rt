//! The limits of a volume and of what it stores.

ghost use Rattle.std.specs.Prelude.{◌≡◌, ◌+◌, ◌≤◌};

/// What a tree may have: this server's profile. The definitions take the limits as an argument.
#[derive(Clone, Copy, PartialEq, Eq)]
pub struct Limits {
    /// Sectors of the data region, against which nodes are charged.
    pub data_sectors: usize,
    pub nodes: usize,
    /// Names of one directory.
    pub names: usize,
    pub name_bytes: usize,
    pub file_bytes: usize,
    /// Entries of an access control list that a client sets.
    pub aces_set: usize,
    /// Entries of the list that a node has.
    pub aces: usize,
    /// Bytes that one READ returns or one WRITE takes.
    pub transfer_bytes: usize,
    /// Opens of all clients.
    pub opens: usize,
}

impl Limits {
    ghost use Rattle.model_tree.specs.Trees.Limits.{limits_of};

    /// The limits of a volume of `sectors` sectors and `nodes` nodes.
    pub fn of_volume(sectors: usize, nodes: usize) -> Limits
        requires { 148 + nodes ≤ sectors }
        ensures { result ≡ limits_of sectors nodes }
    {
        Limits {
            data_sectors: sectors - (148 + nodes),
            nodes,
            names: 1024,
            name_bytes: 255,
            file_bytes: 16_777_216,
            aces_set: 64,
            aces: 72,
            transfer_bytes: 8192,
            opens: 256,
        }
    }
}
