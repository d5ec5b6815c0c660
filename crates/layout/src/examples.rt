//! What nodes of certain sizes take, by computation.

ghost use Rattle.layout.specs.Examples.{FileTakes, DirectoryTakes};

/// A file's blocks are 4,096 bytes each, and every 500 of them need a run sector.
pub fn files()
    ensures empty { FileTakes 0 0 0 }
    ensures one_byte { FileTakes 1 1 2 }
    ensures two_blocks { FileTakes 8191 2 3 }
    ensures two_full_blocks { FileTakes 8192 2 3 }
    ensures one_byte_more { FileTakes 8193 3 4 }
    ensures one_run_sector { FileTakes 2048000 500 501 }
    ensures two_run_sectors { FileTakes 2048001 501 503 }
    ensures largest { FileTakes 16777216 4096 4105 }
{}

/// A directory's blocks hold 15 names each.
pub fn directories()
    ensures empty { DirectoryTakes 0 0 0 }
    ensures one_block { DirectoryTakes 15 1 2 }
    ensures two_blocks { DirectoryTakes 16 2 3 }
    ensures largest { DirectoryTakes 1024 69 70 }
{}
