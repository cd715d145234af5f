// The words of a line.
use std::alloc::{AllocError, Global};

// Words are parted by spaces or tabs. Each tab is made a space once, in the whole text, so that
// a line is searched for one character: a search for two at a time is slow in a long word.
// Each byte is assigned, which the compiler does for many at a time.
pub(crate) fn space_tabs(text: &mut [u8]) {
    for byte in text.iter_mut() {
        *byte = if *byte == b'\t' { b' ' } else { *byte };
    }
}

fn before_comment(line: &str) -> &str {
    line.split_once('#').map_or(line, |(before, _)| before)
}

// The first word of a text without tabs, and what follows it.
fn first_word(text: &str) -> Option<(&str, &str)> {
    let text = text.trim_start_matches(' ');
    if text.is_empty() {
        return None;
    }
    Some(text.split_once(' ').unwrap_or((text, "")))
}

// The words of a line without tabs: a line has no more of them than characters.
pub(crate) fn words(heap: Global, line: &str) -> Result<Vec<&str>, AllocError> {
    let mut words = Vec::new(heap);
    let mut rest = before_comment(line);
    for _ in 0..line.len() {
        let Some((word, later)) = first_word(rest) else {
            break;
        };
        words.push(word)?;
        rest = later;
    }
    Ok(words)
}
