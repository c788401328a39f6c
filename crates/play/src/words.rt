// Words and numbers of a line.
ghost use Rattle.std.specs.Prelude.{◌≡◌, ◌<◌, length, IfSome, position};
ghost use Rattle.std.specs.List.{list_any};
ghost use Rattle.std.specs.Option.{option_map};
ghost use Rattle.play.specs.Script.{is_blank, is_other, is_byte, is_odd, cut_word, both, digit_on, number_of};

use crate::types::LARGEST_NUMBER;

/// The first word of a text, and what stands behind it.
#[tactic(auto, unfolding(crate::specs::Script::cut_word))]
pub fn cut_word(text: &[u8]) -> Option<(&[u8], &[u8])>
    ensures { option_map both result ≡ cut_word text.now }
{
    let start = first_other(text)?;
    let (_, word) = text.split_at(start);
    Some(word.split_at(first_blank(word).unwrap_or(word.len())))
}

// `position` under three names: a proof sees neither what one found once a step follows it, nor what a closure in one gives.
fn first_other(text: &[u8]) -> Option<usize>
    ensures is { result ≡ position is_other text.now }
    ensures within { IfSome result (λ n. n < length text.now) }
{
    text.iter().position(|b| !is_blank(*b))
}

fn first_blank(text: &[u8]) -> Option<usize>
    ensures is { result ≡ position is_blank text.now }
    ensures within { IfSome result (λ n. n < length text.now) }
{
    text.iter().position(|b| is_blank(*b))
}

/// Where a byte is first.
pub fn first_of(text: &[u8], byte: u8) -> Option<usize>
    ensures is { result ≡ position (is_byte byte) text.now }
    ensures within { IfSome result (λ n. n < length text.now) }
{
    text.iter().position(|b| *b == byte)
}

/// The number that a word of digits stands for, up to 999,999,999.
pub fn number(word: &[u8]) -> Option<u64>
    ensures { result ≡ number_of word.now }
{
    if word.is_empty() {
        return None;
    }
    word.iter()
        .fold(Some(0), |number, b| with_digit(number, *b))
}

fn with_digit(number: Option<u64>, b: u8) -> Option<u64>
    ensures { result ≡ digit_on number b }
{
    let n = number?;
    if b.is_ascii_digit() && n <= LARGEST_NUMBER / 10 {
        Some(n * 10 + (b - b'0') as u64)
    } else {
        None
    }
}

fn is_blank(b: u8) -> bool
    ensures { result ≡ is_blank b }
{
    matches!(b, b' ' | b'\t' | b'\r')
}

fn is_odd(b: u8) -> bool
    ensures { result ≡ is_odd b }
{
    !is_blank(b) && !matches!(b, b' '..=b'~')
}

/// Has a text a byte that can't be printed?
pub fn any_odd(text: &[u8]) -> bool
    ensures { result ≡ list_any is_odd text.now }
{
    text.iter().any(|b| is_odd(*b))
}
