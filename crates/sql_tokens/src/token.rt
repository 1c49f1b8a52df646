//! Tokens, read one after another from the front of a text.
ghost use Rattle.std.specs.Prelude.{◌≡◌, ◌<◌, ◌≤◌, ◌+◌, ◌^◌, [], ◌∷◌, length, map, slice_index, IfSome, MatchOption};
ghost use Rattle.std.specs.Char.{to_ascii_lowercase};
ghost use Rattle.std.specs.List.{prefix_len};
ghost use Rattle.std.specs.Str.{bytes_eq};
ghost use Rattle.plain_data.specs.Byte.{is_white};
ghost use Rattle.object_forms.specs.Token.{closing, comment_end, ends_comment, first_token, is_gap, is_mark, is_quote, is_word, is_word_byte, past_gaps, past_spaces, quoted_lexeme, slash_lexeme, tokens};
ghost use Rattle.object_forms.specs.Head.{after_token, after_word};
ghost use Rattle.object_forms.specs.Shape.{depth_after};
ghost use Rattle.sql_tokens.specs.Left.{IsLeft};
ghost use Rattle.sql_tokens.specs.Reading.{IsFirstLexeme, closes, lexeme_of, past_first, quoted_step, token_of, tokens_of};

/// A token, with the bytes of a word or of a name, which are lent out of the text.
#[derive(Clone, Copy)]
pub enum Token<'a> {
    /// Letters, digits, `_`, `$` and bytes from 0x80 on, as many as stand together.
    Word(&'a [u8]),
    /// What stands between backquotes, as it is spelled there.
    QuotedName(&'a [u8]),
    /// A string in single or double quotes.
    String,
    /// One byte of white space.
    White,
    /// A comment from `/*` to `*/`, of any version.
    Comment,
    /// Any other byte.
    Mark(u8),
    /// A quote or a `/*` that nothing ends, with all that follows it.
    Unended,
}

// A token and how many bytes it has.
#[derive(Clone, Copy)]
struct Lexeme<'a> {
    size: usize,
    token: Token<'a>,
}

fn is_word_byte(byte: u8) -> bool
    ensures { result ≡ is_word_byte byte }
{
    byte.is_ascii_alphanumeric() || byte == b'_' || byte == b'$' || byte >= 0x80
}

fn is_white(byte: u8) -> bool
    ensures { result ≡ is_white byte }
{
    byte == b' ' || byte == b'\t' || byte == b'\n' || byte == b'\r'
}

fn is_quote(byte: u8) -> bool
    ensures { result ≡ is_quote byte }
{
    byte == b'`' || byte == b'\'' || byte == b'"'
}

#[tactic(auto, using(crate::proofs::Quotes::prefixes))]
fn word_length(text: &[u8]) -> usize
    ensures { result ≡ prefix_len is_word_byte text.now }
{
    for i in 0..text.len() {
        if !is_word_byte(text[i]) {
            return i;
        }
    }
    text.len()
}

// How many bytes are passed over at once inside quotes, where this one doesn't end them.
fn quoted_step(quote: u8, byte: u8) -> usize
    ensures { result ≡ quoted_step quote byte }
{
    if byte == quote || (byte == b'\\' && quote != b'`') {
        2
    } else {
        1
    }
}

// Whether the text begins with a quote that isn't doubled.
fn closes(quote: u8, text: &[u8]) -> bool
    ensures { result ≡ closes quote text.now }
{
    match text {
        [] => false,
        [byte] => *byte == quote,
        [byte, next, ..] => *byte == quote && *next != quote,
    }
}

// How many bytes there are up to the closing quote and with it, after an opening one.
#[tactic(auto, using(crate::proofs::Quotes::quotes))]
fn closing(quote: u8, text: &[u8]) -> Option<usize>
    ensures exact { result ≡ closing quote text.now }
    ensures within { IfSome result (λ size. (1 ≤ size) × (size ≤ length text.now)) }
{
    let mut at = 0;
    'quoted: while at < text.len() {
        if closes(quote, text.split_at(at).1) {
            return Some(at + 1);
        }
        at += quoted_step(quote, text[at]);
    }
    None
}

// Whether a comment ends at this place, with two bytes.
fn ends_comment(text: &[u8], at: usize) -> bool
    requires { at + 1 < length text.now }
    ensures { result ≡ ends_comment (slice_index text.now at) (slice_index text.now (at + 1)) }
{
    text[at] == b'*' && text[at + 1] == b'/'
}

// How many bytes there are up to the end of a comment and with it, after its beginning.
#[tactic(auto, using(crate::proofs::Quotes::comments))]
fn comment_end(text: &[u8]) -> Option<usize>
    ensures exact { result ≡ comment_end text.now }
    ensures within { IfSome result (λ size. size ≤ length text.now) }
{
    let mut at = 0;
    'commented: while at + 1 < text.len() {
        if ends_comment(text, at) {
            return Some(at + 2);
        }
        at += 1;
    }
    None
}

// What begins with a quote, after which the text stands.
fn quoted(quote: u8, text: &[u8]) -> Lexeme<'_>
    ensures { lexeme_of result ≡ quoted_lexeme quote text.now (closing quote text.now) }
{
    match closing(quote, text) {
        Some(size) if quote == b'`' => Lexeme {
            size: size + 1,
            token: Token::QuotedName(&text[..size - 1]),
        },
        Some(size) => Lexeme {
            size: size + 1,
            token: Token::String,
        },
        None => Lexeme {
            size: text.len() + 1,
            token: Token::Unended,
        },
    }
}

// What begins with a slash, after which the text stands.
fn slashed(text: &[u8]) -> Lexeme<'_>
    ensures { lexeme_of result ≡ slash_lexeme text.now }
{
    let Some((b'*', inner)) = text.split_first() else {
        return Lexeme {
            size: 1,
            token: Token::Mark(b'/'),
        };
    };
    match comment_end(inner) {
        Some(size) => Lexeme {
            size: size + 2,
            token: Token::Comment,
        },
        None => Lexeme {
            size: text.len() + 1,
            token: Token::Unended,
        },
    }
}

// The first token of a text that isn't empty.
fn first_token(text: &[u8]) -> Option<Lexeme<'_>>
    ensures { IsFirstLexeme text.now result }
{
    let (byte, after) = text.split_first()?;
    let byte = *byte;
    if is_word_byte(byte) {
        let size = word_length(text);
        return Some(Lexeme {
            size,
            token: Token::Word(&text[..size]),
        });
    }
    if is_quote(byte) {
        return Some(quoted(byte, after));
    }
    if is_white(byte) {
        return Some(Lexeme {
            size: 1,
            token: Token::White,
        });
    }
    if byte == b'/' {
        return Some(slashed(after));
    }
    Some(Lexeme {
        size: 1,
        token: Token::Mark(byte),
    })
}

/// How many bytes the first token of a text has; none where the text is empty.
#[tactic(auto, using(crate::proofs::Lefts::lefts))]
pub fn token_size(text: &[u8]) -> usize
    ensures size { result ≡ (first_token text.now).size }
    ensures within { result ≤ length text.now }
{
    match first_token(text) {
        Some(found) => found.size,
        None => 0,
    }
}

/// What stands after the first token; nothing where the text is empty.
pub fn past_token(text: &[u8]) -> &[u8]
    ensures { result.now ≡ past_first text.now }
{
    text.split_at(token_size(text)).1
}

/// The first token of a text, and what stands after it; `None` where the text is empty.
#[tactic(auto, using(crate::proofs::Tokens::steps))]
pub fn next_token(text: &[u8]) -> Option<(Token<'_>, &[u8])>
    ensures first { MatchOption result (tokens text.now ≡ []) (λ found.
        tokens text.now ≡ token_of found.0 ∷ tokens found.1.now) }
    ensures shorter { IfSome result (λ found. length found.1.now < length text.now) }
    ensures after { IfSome result (λ found. found.1.now ≡ past_first text.now) }
{
    let first = first_token(text)?;
    let (_, after) = text.split_at(first.size);
    Some((first.token, after))
}

// Whether the bytes are that word, which is given in lower case, in any case.
fn is_lowered(bytes: &[u8], lower: &[u8]) -> bool
    ensures { result ≡ bytes_eq (map to_ascii_lowercase bytes.now) lower.now }
{
    if bytes.len() != lower.len() {
        return false;
    }
    for i in 0..bytes.len() {
        if bytes[i].to_ascii_lowercase() != lower[i] {
            return false;
        }
    }
    true
}

impl Token<'_> {
    /// Whether it is that word, which is given in lower case, in any case.
    pub fn is_word(self, lower: &[u8]) -> bool
        ensures { result ≡ is_word lower.now (token_of self.entry) }
    {
        match self {
            Token::Word(bytes) => is_lowered(bytes, lower),
            _ => false,
        }
    }

    /// Whether it is that byte.
    pub fn is_mark(self, byte: u8) -> bool
        ensures { result ≡ is_mark byte (token_of self.entry) }
    {
        match self {
            Token::Mark(other) => byte == other,
            _ => false,
        }
    }

    /// How deep in parentheses what follows the token stands. `depth` is how deep the token stands,
    /// and is below 2^63.
    pub fn depth_after(self, depth: usize) -> usize
        requires { depth < 2 ^ 63 }
        ensures { result ≡ depth_after (token_of self.entry) depth }
    {
        if self.is_mark(b'(') {
            depth + 1
        } else if self.is_mark(b')') {
            depth.saturating_sub(1)
        } else {
            depth
        }
    }

    /// Whether it is white space or a comment.
    pub fn is_gap(self) -> bool
        ensures { result ≡ is_gap (token_of self.entry) }
    {
        matches!(self, Token::White | Token::Comment)
    }
}

/// What stands after white space and comments.
#[tactic(auto, using(crate::proofs::Cuts::left))]
pub fn past_gaps(text: &[u8]) -> &[u8]
    ensures past { tokens result.now ≡ past_gaps (tokens text.now) }
    ensures left { IsLeft text.now result.now }
{
    let mut rest = text;
    'gaps: while let Some((token, after)) = next_token(rest) {
        if !token.is_gap() {
            return rest;
        }
        rest = after;
    }
    rest
}

/// What stands after white space.
pub fn past_spaces(text: &[u8]) -> &[u8]
    ensures { tokens result.now ≡ past_spaces (tokens text.now) }
{
    let mut rest = text;
    'spaces: while let Some((token, after)) = next_token(rest) {
        let Token::White = token else {
            return rest;
        };
        rest = after;
    }
    rest
}

/// What stands after a token at the front that is this byte; `None` where none is there.
pub fn after_mark(byte: u8, text: &[u8]) -> Option<&[u8]>
    ensures { tokens_of result ≡ after_token (is_mark byte) (tokens text.now) }
{
    let (token, rest) = next_token(text)?;
    token.is_mark(byte).then_some(rest)
}

/// What stands after a token at the front that is this word, which is given in lower case and
/// stands in any case; `None` where it isn't there.
pub fn after_front_word<'a>(lower: &[u8], text: &'a [u8]) -> Option<&'a [u8]>
    ensures after { tokens_of result ≡ after_token (is_word lower.now) (tokens text.now) }
    ensures left { IfSome result (λ rest. rest.now ≡ past_first text.now) }
{
    let (token, rest) = next_token(text)?;
    token.is_word(lower).then_some(rest)
}

/// The same of a word past white space and comments.
pub fn after_word<'a>(lower: &[u8], text: &'a [u8]) -> Option<&'a [u8]>
    ensures { tokens_of result ≡ after_word lower.now (tokens text.now) }
{
    after_front_word(lower, past_gaps(text))
}
