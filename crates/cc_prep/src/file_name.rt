// Names of files.

/// The most bytes of a file name.
const MOST_BYTES: usize = 200;

// A letter, a digit, `_`, `-`, `.` or `/`.
fn in_file_name(b: u8) -> bool {
    b.is_ascii_alphanumeric() || matches!(b, b'_' | b'-' | b'.' | b'/')
}

// Whether the text begins with the part `..`.
fn begins_up(text: &[u8]) -> bool {
    matches!(text, [b'.', b'.'] | [b'.', b'.', b'/', ..])
}

// Whether one of the parts between slashes is `..`.
fn has_part_up(text: &[u8]) -> bool {
    let mut begins = true;
    for i in 0..text.len() {
        if begins && begins_up(&text[i..]) {
            return true;
        }
        begins = text[i] == b'/';
    }
    false
}

/// Whether the text is 1 to 200 bytes of letters, digits, `_`, `-`, `.` and `/`, not beginning with `/` and without a
/// part `..`.
pub fn is_file_name(text: &[u8]) -> bool {
    match text.first() {
        Some(first) => {
            *first != b'/'
                && text.iter().all(|b| in_file_name(*b))
                && text.len() <= MOST_BYTES
                && !has_part_up(text)
        }
        None => false,
    }
}
