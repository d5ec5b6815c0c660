//! Which program this is.

/// The release.
pub const RELEASE: &str = "0.1.0";

/// The release, and the toolchain that it is proved and built with, as `rt version` prints it.
pub const VERSION: &str = "0.1.0 (rattle-kit-13f logic dac8208d650f15bf)";
