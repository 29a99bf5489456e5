//! Parts of a text.

/// How often some bytes stand in a text.
pub(crate) fn count(text: &[u8], part: &[u8]) -> usize {
    let mut found = 0usize;
    for place in 0..text.len() {
        if text[place..].starts_with(part) {
            found = found.saturating_add(1);
        }
    }
    found
}
