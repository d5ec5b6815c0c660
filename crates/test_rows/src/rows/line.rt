//! The lines of a file of rows.

/// What a line says.
#[derive(Clone, Copy)]
pub enum Line<'a> {
    /// Nothing: it is empty, or a comment.
    Nothing,
    /// A record of this name begins, with these words.
    Record { name: &'a str, words: &'a str },
    /// A row of this name begins.
    Row(&'a str),
    /// The record or the row that began last goes on.
    More(&'a str),
}

/// Reads a line without its end; None if it has no form.
pub fn read_line(text: &str) -> Option<Line<'_>> {
    let text = match text.split_once("#") {
        Some((prefix, _)) => prefix,
        None => text,
    };
    let words = text.trim();
    if words.is_empty() {
        return Some(Line::Nothing);
    }
    if text.starts_with(' ') {
        return Some(Line::More(words));
    }
    if let Some((name, words)) = words.split_once(" =") {
        return is_name(name).then_some(Line::Record { name, words });
    }
    let name = words.strip_prefix("row ")?;
    is_name(name).then_some(Line::Row(name))
}

/// Whether a text is the name of a record or of a row.
fn is_name(text: &str) -> bool {
    !text.is_empty()
        && text
            .bytes()
            .all(|byte| byte.is_ascii_alphanumeric() || byte == b'_')
}
