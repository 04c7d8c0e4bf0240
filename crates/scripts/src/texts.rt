// Texts cut into words and lines.
ghost use Rattle.std.specs.Prelude.{◌≡◌, ◌==◌, ◌<◌, ◌^◌, [], ◌∷◌, length, position, MatchOption};
ghost use Rattle.std.specs.Str.{bytes_eq};
ghost use Rattle.scripts.specs.Texts.{before, behind, words_of, lines_of};

pub(crate) fn is(word: &[u8], name: &[u8]) -> bool
    ensures { result ≡ bytes_eq word.now name.now }
{
    word == name
}

// The place of the first such byte.
fn find(text: &[u8], byte: u8) -> Option<usize>
    ensures { result ≡ position (λ x. x == byte) text.now }
{
    text.iter().position(|x| *x == byte)
}

// What stands before the first such byte, and what behind it; none where there is none.
fn split_at_first(text: &[u8], byte: u8) -> Option<(&[u8], &[u8])>
    ensures test { MatchOption result (before byte text.now ≡ text.now) (λ _. length (before byte text.now) < length text.now) }
    ensures parts { MatchOption result (behind byte text.now ≡ []) (λ p. (p.0.now ≡ before byte text.now) × (p.1.now ≡ behind byte text.now)) }
{
    let end = find(text, byte)?;
    Some((&text[..end], &text[end + 1..]))
}

// The first word and the text behind its blank; none where the text is one word.
pub(crate) fn split_word(text: &[u8]) -> Option<(&[u8], &[u8])>
    ensures { MatchOption result (words_of text.now ≡ text.now ∷ []) (λ p. words_of text.now ≡ p.0.now ∷ words_of p.1.now) }
{
    split_at_first(text, b' ')
}

// The first line, without its LF, and the text behind it; none where nothing is left.
pub fn split_line(text: &[u8]) -> Option<(&[u8], &[u8])>
    ensures parts { MatchOption result (text.now ≡ []) (λ p. (p.0.now ≡ before 10 text.now) × (p.1.now ≡ behind 10 text.now)) }
    ensures lines { MatchOption result (lines_of text.now ≡ []) (λ p. lines_of text.now ≡ p.0.now ∷ lines_of p.1.now) }
    ensures shorter { MatchOption result (length text.now ≡ 0) (λ p. length p.1.now < length text.now) }
{
    if text.is_empty() {
        return None;
    }
    split_at_first(text, b'\n').or(Some((text, &text[text.len()..])))
}

// The lines of a text, in order, each without its LF.
#[derive(Clone, Copy)]
pub struct Lines<'a> {
    rest: &'a [u8],
    pub ghost fits: { length (lines_of rest.now) < 2 ^ 64 },
}

pub fn lines_in(text: &[u8]) -> Lines<'_>
    ensures { result.rest.now ≡ text.now }
{
    Lines { rest: text }
}

impl<'a> Iterator for Lines<'a> {
    ghost use Rattle.std.specs.Iterator.{YieldsFirstRef, item_count};
    ghost use Rattle.scripts.specs.Texts.{lines_of};

    type Item = &'a [u8];

    ghost next_gives = { YieldsFirstRef (λ s. lines_of s.rest.now) };

    ghost remaining = { item_count (λ s. lines_of s.rest.now) };

    fn next(&mut self) -> Option<&'a [u8]> {
        let (line, rest) = split_line(self.rest)?;
        self.rest = rest;
        Some(line)
    }
}
