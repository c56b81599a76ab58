// Directive lines.
ghost use Rattle.std.specs.Prelude.{◌≡◌, ◌≤◌, ◌<◌, IfSome, length};
ghost use Rattle.std.specs.Str.{bytes_eq};
ghost use Rattle.cc_lex.specs.Bytes as bytes;
ghost use Rattle.cc_lex.specs.Bytes.{count_front};
ghost use Rattle.cc_prep.specs.Lines as spec;

/// The word of a directive line.
#[derive(Clone, Copy)]
pub enum Word {
    Define,
    Undef,
    Include,
    Ifdef,
    Ifndef,
    If,
    Elif,
    Else,
    Endif,
}

/// The beginning of a directive line.
#[derive(Clone, Copy)]
pub struct Head {
    pub word: Word,
    /// How many bytes of the line stand before its `#`.
    pub hash: usize,
    /// How many bytes of the line go up to and with its word.
    pub rest: usize,
}

// Whether the byte is a space or a tab.
fn is_blank(b: u8) -> bool
    ensures { result ≡ bytes.is_blank b }
{
    b == b' ' || b == b'\t'
}

// Whether the byte may stand in a name.
fn in_name(b: u8) -> bool
    ensures { result ≡ bytes.in_name 0 b }
{
    ((b'a' <= b && b <= b'z') || (b'A' <= b && b <= b'Z') || b == b'_') || (b'0' <= b && b <= b'9')
}

// How many spaces and tabs stand at the front.
fn blank_count(mut z: &[u8]) -> usize
    ensures value { result ≡ spec.blank_count z.entry.now }
    ensures within { result ≤ length z.entry.now }
{
    let mut count = 0;
    while let [b, rest @ ..] = z {
        if !is_blank(*b) {
            return count;
        }
        count += 1;
        z = rest;
    }
    count
}

// How many bytes of a name stand at the front.
fn name_len(mut z: &[u8]) -> usize
    ensures value { result ≡ spec.name_len z.entry.now }
    ensures within { result ≤ length z.entry.now }
{
    let mut count = 0;
    while let [b, rest @ ..] = z {
        if !in_name(*b) {
            return count;
        }
        count += 1;
        z = rest;
    }
    count
}

/// How many bytes the line at the front has, with its line feed.
pub fn line_len(mut z: &[u8]) -> usize
    ensures value { result ≡ spec.line_len z.entry.now }
    ensures within { result ≤ length z.entry.now }
    ensures some { 0 < length z.entry.now → 0 < result }
{
    let mut count = 0;
    while let [b, rest @ ..] = z {
        count += 1;
        if *b == b'\n' {
            return count;
        }
        z = rest;
    }
    count
}

// Whether these are the bytes of the word.
fn is_word(w: &[u8], word: &str) -> bool
    ensures { result ≡ bytes_eq w.now word.now }
{
    w == word.as_bytes()
}

// The word with this spelling.
fn word_of(w: &[u8]) -> Option<Word>
    ensures { result ≡ spec.word_of w.now }
{
    if is_word(w, "define") {
        Some(Word::Define)
    } else if is_word(w, "undef") {
        Some(Word::Undef)
    } else if is_word(w, "include") {
        Some(Word::Include)
    } else if is_word(w, "ifdef") {
        Some(Word::Ifdef)
    } else if is_word(w, "ifndef") {
        Some(Word::Ifndef)
    } else if is_word(w, "if") {
        Some(Word::If)
    } else if is_word(w, "elif") {
        Some(Word::Elif)
    } else if is_word(w, "else") {
        Some(Word::Else)
    } else if is_word(w, "endif") {
        Some(Word::Endif)
    } else {
        None
    }
}

// The first byte, or 0.
fn first(z: &[u8]) -> u8
    ensures { result ≡ bytes.first z.now }
{
    match z {
        [] => 0,
        [b, ..] => *b,
    }
}

// How many bytes of the line go up to and with its `#` and the spaces and tabs behind it, if only spaces and tabs stand
// before the `#`.
fn hash_len(z: &[u8]) -> Option<usize>
    ensures value { result ≡ spec.hash_len z.now }
    ensures within { IfSome result (λ at. at ≤ length z.now) }
    ensures behind { IfSome result (λ at. spec.blank_count z.now < at) }
{
    let blanks = blank_count(z);
    if first(&z[blanks..]) != b'#' {
        return None;
    }
    Some(blanks + 1 + blank_count(&z[blanks + 1..]))
}

/// The beginning of the line at the front, if it has one of the words.
pub fn head_of(z: &[u8]) -> Option<Head>
    ensures value { result ≡ spec.head_of z.now }
    ensures hash { IfSome result (λ head. head.hash ≤ head.rest) }
    ensures rest { IfSome result (λ head. head.rest ≤ length z.now) }
{
    let Some(at) = hash_len(z) else {
        return None;
    };
    let rest = &z[at..];
    let len = name_len(rest);
    let Some(word) = word_of(&rest[..len]) else {
        return None;
    };
    Some(Head {
        word,
        hash: blank_count(z),
        rest: at + len,
    })
}

/// Whether the lexer skips the line at the front: `#` and a digit, or the word `line` or `pragma`.
pub fn is_skipped(z: &[u8]) -> bool {
    let Some(at) = hash_len(z) else {
        return false;
    };
    let rest = &z[at..];
    let word = &rest[..name_len(rest)];
    first(rest).is_ascii_digit() || is_word(word, "line") || is_word(word, "pragma")
}

fn counts_in_text(in_group: bool, word: Word) -> bool
    ensures { result ≡ spec.counts_in_text in_group word }
{
    match word {
        Word::If => false,
        Word::Elif => in_group,
        _ => true,
    }
}

fn counts_in_skipped(word: Word) -> bool
    ensures { result ≡ spec.counts_in_skipped word }
{
    match word {
        Word::Define | Word::Undef | Word::Include => false,
        _ => true,
    }
}

/// The beginning of the line, if it is a directive line where text is read. An `elif` is one where a group is open.
pub fn directive_of(in_group: bool, z: &[u8]) -> Option<Head>
    ensures value { result ≡ spec.directive_of in_group z.now }
    ensures hash { IfSome result (λ head. head.hash ≤ head.rest) }
    ensures rest { IfSome result (λ head. head.rest ≤ length z.now) }
{
    match head_of(z) {
        Some(head) => {
            if counts_in_text(in_group, head.word) {
                Some(head)
            } else {
                None
            }
        }
        None => None,
    }
}

/// The beginning of the line, if it begins, turns or ends a group.
pub fn group_line_of(z: &[u8]) -> Option<Head>
    ensures value { result ≡ spec.group_line_of z.now }
    ensures hash { IfSome result (λ head. head.hash ≤ head.rest) }
    ensures rest { IfSome result (λ head. head.rest ≤ length z.now) }
{
    match head_of(z) {
        Some(head) => {
            if counts_in_skipped(head.word) {
                Some(head)
            } else {
                None
            }
        }
        None => None,
    }
}
