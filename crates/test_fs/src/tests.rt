//! What no contract says: what is there after mounts of version 1 and their crashes, which images a
//! mount refuses, and that nothing is refused if there is room.

mod caches;
mod drivers;
mod filling;
mod images;
mod large;
mod migrations;
mod sectors;
mod version_1;
mod volumes;
