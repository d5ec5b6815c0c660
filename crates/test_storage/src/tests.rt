//! What no contract says: that calls succeed, what is in a file, and what a crash leaves.

mod directories;
mod drivers;
mod files;
mod lists;
mod maps;
mod transactions;
