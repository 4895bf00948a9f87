ghost use Rattle.std.specs.Prelude.{◌≡◌, ◌<◌, [], ◌∷◌, length, not, IfOk, MatchOption};
ghost use Rattle.std.specs.List.{position_or_len};
ghost use Rattle.sheet.specs.Text.{blank, texts};
ghost use Rattle.sheet.specs.Words.{said, runs, words_of};

use std::alloc::{AllocError, Global};

#[tactic(auto, unfolding(crate::specs::Text::blank))]
fn is_blank(byte: u8) -> bool
    ensures { result ≡ blank byte }
{
    matches!(byte, b' ' | b'\t' | b'\r')
}

fn before_comment(line: &[u8]) -> &[u8]
    ensures { result.now ≡ said line.now }
{
    let comment = line.iter().position(|byte| *byte == b'#');
    &line[..comment.unwrap_or(line.len())]
}

fn word_start(text: &[u8]) -> usize
    ensures { result ≡ position_or_len (λ byte. not (blank byte)) text.now }
{
    let start = text.iter().position(|byte| !is_blank(*byte));
    start.unwrap_or(text.len())
}

fn word_end(text: &[u8]) -> usize
    ensures { result ≡ position_or_len blank text.now }
{
    let end = text.iter().position(|byte| is_blank(*byte));
    end.unwrap_or(text.len())
}

// The first word of `text`, and what follows it.
fn first_word(text: &[u8]) -> Option<(&[u8], &[u8])>
    ensures { MatchOption result (runs text.now ≡ []) (λ x. (runs text.now ≡ x.0.now ∷ runs x.1.now) × (length x.1.now < length text.now)) }
{
    let (_, from_word) = text.split_at(word_start(text));
    if from_word.is_empty() {
        return None;
    }
    Some(from_word.split_at(word_end(from_word)))
}

// The words of a line, in their order. A comment has none. Blanks are passed over by one search, and are no pieces.
pub fn words<'a>(heap: Global, line: &'a [u8]) -> Result<Vec<&'a [u8]>, AllocError>
    ensures { IfOk result (λ words. texts words.items ≡ words_of line.now) }
{
    let mut words = Vec::new(heap);
    let mut rest = before_comment(line);
    while let Some((word, after)) = first_word(rest) {
        words.push(word)?;
        rest = after;
    }
    Ok(words)
}
