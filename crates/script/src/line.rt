// A line cut into words, and the numbers among them.
ghost use Rattle.std.specs.Prelude.{◌≡◌, ℕ, ◌+◌, ◌-◌, ◌*◌, ◌^◌, ◌<◌, min, true, false, List, [], ◌∷◌, map, length, drop, MatchOption, ◌≢◌};
ghost use Rattle.std.specs.Char.{is_ascii_digit};
ghost use Rattle.script.specs.Line.{Number, Part, number_of, numbers_from, parts, starts_blank, words};
ghost use Rattle.script.specs.Commands.{quiet};

// `n` with one digit more, if `b` is a digit.
fn with_digit(n: u64, b: u8) -> Option<u64>
    ensures { MatchOption result (is_ascii_digit b ≡ false) (λ m. (is_ascii_digit b ≡ true) × (m ≡ min (n * 10 + (b - 48)) (2 ^ 64 - 1))) }
{
    if !b.is_ascii_digit() {
        return None;
    }
    Some(n.saturating_mul(10).saturating_add(u64::from(b - b'0')))
}

/// The number that `word` writes in decimal: digits alone, saturating at `u64::MAX`.
pub fn number(word: &[u8]) -> Option<u64>
    ensures { result ≡ number_of word.now }
{
    if word.is_empty() {
        return None;
    }
    let mut n = 0;
    for b in word {
        n = with_digit(n, *b)?;
    }
    Some(n)
}

// Whether `line` goes on with a blank: a carriage return is one only at the end.
fn starts_blank(line: &[u8]) -> bool
    ensures { result ≡ starts_blank line.now }
{
    matches!(line, [b' ' | b'\t', ..] | [b'\r'])
}

// Whether a blank stands at `i`.
fn blank_at(line: &[u8], i: usize) -> bool
    requires { i < length line.now }
    ensures { result ≡ starts_blank (drop i line.now) }
{
    match line[i] {
        b' ' | b'\t' => true,
        b'\r' => i + 1 == line.len(),
        _ => false,
    }
}

// `line` without the blanks that it begins with.
fn trim_start(mut line: &[u8]) -> &[u8]
    ensures same { words result.now ≡ words line.now }
    ensures dark { starts_blank result.now ≡ false }
{
    while let [_, rest @ ..] = line
        && starts_blank(line)
    {
        line = rest;
    }
    line
}

/// The first word of `line` and what stands after it.
pub fn next_word(line: &[u8]) -> Option<(&[u8], &[u8])>
    ensures { MatchOption result (words line.now ≡ [])
        (λ p. (words line.now ≡ p.0.now ∷ words p.1.now) × (0 < length p.0.now)) }
{
    let line = trim_start(line);
    if line.is_empty() {
        return None;
    }
    let end = (0..line.len())
        .find(|&i| blank_at(line, i))
        .unwrap_or(line.len());
    Some(line.split_at(end))
}

/// The first word of `line` and what stands after it, if the line says something: it is not blank, nor a comment.
pub fn first_word(line: &[u8]) -> Option<(&[u8], &[u8])>
    ensures { MatchOption result (quiet (words line.now) ≡ true)
        (λ p. (quiet (words line.now) ≡ false) × (words line.now ≡ p.0.now ∷ words p.1.now)) }
{
    let (word, rest) = next_word(line)?;
    if word.starts_with(b"#") {
        return None;
    }
    Some((word, rest))
}

// The number that `line` begins with and what stands after it.
pub(crate) fn next_number(line: &[u8]) -> Option<(u64, &[u8])>
    ensures { MatchOption result ((n : ℕ) (ps : List Part) → parts line.now ≢ Number n ∷ ps)
        (λ p. parts line.now ≡ Number p.0 ∷ parts p.1.now) }
{
    let (word, rest) = next_word(line)?;
    let n = number(word)?;
    Some((n, rest))
}

/// The numbers of `line`, if it has `N` of them and nothing else.
pub fn numbers<const N: usize>(line: &[u8]) -> Option<[u64; N]>
    ensures { MatchOption result ((ns : List ℕ) → length ns ≡ N → parts line.now ≢ map Number ns)
        (λ ns. parts line.now ≡ numbers_from 0 N ns) }
{
    let mut all = [0; N];
    let mut rest = line;
    for n in all.iter_mut() {
        let (next, after) = next_number(rest)?;
        *n = next;
        rest = after;
    }
    next_word(rest).is_none().then_some(all)
}
