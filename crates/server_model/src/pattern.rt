//! Whether a pattern matches a text.
ghost use Rattle.std.specs.Prelude.{◌≡◌, drop};
ghost use Rattle.server_data.specs.Pattern.{matches};
ghost use Rattle.server_model.specs.Step.{byte_step, end_step, next_step};

/// Whether the pattern matches the whole text: `*` stands for any bytes, perhaps none, `?` for one byte,
/// and every other byte for itself. Takes no memory. Its time grows with the product of the lengths at
/// most.
pub fn pattern_matches(pattern: &[u8], text: &[u8]) -> bool
    ensures { result ≡ matches pattern.now text.now }
{
    let mut left = pattern;
    let mut rest = text;
    // The pattern after the last star, and the text from which on it stands for bytes.
    let mut again = pattern;
    let mut from: &[u8] = b"";
    'bytes: loop {
        match next_step(left, rest) {
            Step::Whole => return true,
            Step::Short => return false,
            Step::Star => {
                left = tail(left);
                again = left;
                from = rest;
            }
            Step::Byte => {
                left = tail(left);
                rest = tail(rest);
            }
            Step::Miss => {
                if from.is_empty() {
                    return false;
                }
                from = tail(from);
                left = again;
                rest = from;
            }
        }
    }
}

/// What is to be done next with what is left of a pattern and of a text.
#[derive(Clone, Copy)]
pub enum Step {
    /// Nothing is left of either.
    Whole,
    /// The pattern goes on with a star.
    Star,
    /// The byte of the pattern stands for that of the text.
    Byte,
    /// It doesn't, or text is left where the pattern ends: the last star has to stand for more.
    Miss,
    /// The text ends before the pattern, and stars that stand for more leave even less of it.
    Short,
}

fn next_step(left: &[u8], rest: &[u8]) -> Step
    ensures { result ≡ next_step left.now rest.now }
{
    match left {
        [] => end_step(rest),
        [byte, ..] => {
            if *byte == b'*' {
                Step::Star
            } else {
                byte_step(*byte, rest)
            }
        }
    }
}

// Where nothing is left of the pattern.
fn end_step(rest: &[u8]) -> Step
    ensures { result ≡ end_step rest.now }
{
    match rest {
        [] => Step::Whole,
        [_, ..] => Step::Miss,
    }
}

// At a byte of the pattern that isn't a star.
fn byte_step(byte: u8, rest: &[u8]) -> Step
    ensures { result ≡ byte_step byte rest.now }
{
    match rest {
        [] => Step::Short,
        [first, ..] => {
            if byte == b'?' || byte == *first {
                Step::Byte
            } else {
                Step::Miss
            }
        }
    }
}

// The bytes after the first.
fn tail(bytes: &[u8]) -> &[u8]
    ensures { result.now ≡ drop 1 bytes.now }
{
    match bytes {
        [] => bytes,
        [_, rest @ ..] => rest,
    }
}
