// Where the recording begins in the input of a verification, and how many lines stand before it.
ghost use Rattle.std.specs.Prelude.{◌≡◌, ◌≤◌, length};
ghost use Rattle.sp_base.specs.declared.limits.TheConstants.{MAX_INPUT_BYTES};
ghost use Rattle.sp_service.specs.Splits.{IsSplit, is_marked, line_count};

/// The place of the first line that begins with `recording 1`, or the end of the text.
pub fn split(text: &[u8]) -> usize
    ensures { IsSplit text.now result }
{
    'places: for place in 0..text.len() {
        if is_marked(text, place) {
            return place;
        }
    }
    text.len()
}

/// Whether a line begins at this place with the mark of a recording.
fn is_marked(text: &[u8], place: usize) -> bool
    requires { place ≤ length text.now }
    ensures { result ≡ is_marked text.now place }
{
    (place == 0 || text[place - 1] == b'\n') && text[place..].starts_with(b"recording 1")
}

/// How many lines a text has. A last one without a newline counts.
pub fn line_count(text: &[u8]) -> u32
    requires { length text.now ≤ MAX_INPUT_BYTES }
    ensures count { result ≡ line_count text.now }
    ensures few { result ≤ length text.now }
{
    let mut count = 0u32;
    'bytes: for (place, byte) in text.iter().enumerate() {
        if *byte == b'\n' || place + 1 == text.len() {
            count += 1;
        }
    }
    count
}
