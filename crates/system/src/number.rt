//! The numbers of a command line and of a script.

/// A number below 2^32, of decimal digits only.
pub fn decimal(text: &str) -> Option<u32> {
    if !text.bytes().all(|byte| byte.is_ascii_digit()) {
        return None;
    }
    text.parse::<u32>().ok()
}
