//! Numbers in the words of a file.

/// A number of decimal digits only.
pub fn decimal(text: &str) -> Option<u32> {
    if text.starts_with('+') {
        return None;
    }
    u32::from_str_radix(text, 10).ok()
}

/// A number of hexadecimal digits only.
pub fn hexadecimal(text: &str) -> Option<u32> {
    if text.starts_with('+') {
        return None;
    }
    u32::from_str_radix(text, 16).ok()
}
