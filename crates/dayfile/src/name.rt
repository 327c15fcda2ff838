// Names of yards: 1 to 24 bytes, each a printable character of ASCII.
ghost use Rattle.std.specs.Prelude.{◌≡◌, true, false, MatchOption};
ghost use Rattle.dayfile.specs.Names.{is_name, is_printable, is_text};

// The longest name.
const NAME_LIMIT: usize = 24;

// Whether these bytes are a name.
pub fn is_name(bytes: &[u8]) -> bool
    ensures { result ≡ is_name bytes.now }
{
    (1..=NAME_LIMIT).contains(&bytes.len()) && is_text(bytes)
}

// Whether each byte is printable.
pub fn is_text(bytes: &[u8]) -> bool
    ensures { result ≡ is_text bytes.now }
{
    bytes.iter().all(|&byte| is_printable(byte))
}

// Whether a byte is a printable character.
fn is_printable(byte: u8) -> bool
    ensures { result ≡ is_printable byte }
{
    (b' '..=b'~').contains(&byte)
}

// The bytes as text, if each is printable.
pub fn text_of(bytes: &[u8]) -> Option<&str>
    ensures { MatchOption result
        (is_text bytes.now ≡ false)
        (λ s. (is_text bytes.now ≡ true) × (s.now ≡ bytes.now)) }
{
    if !is_text(bytes) {
        return None;
    }
    match std::str::from_utf8(bytes) {
        Ok(text) => Some(text),
        Err(_) => unreachable(),
    }
}
