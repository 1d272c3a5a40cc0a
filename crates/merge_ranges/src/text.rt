ghost use Rattle.std.specs.Prelude.{◌≡◌, ◌≢◌, ℕ, ◌<◌, ◌^◌, List, ◌∷◌, ◌++◌, decimal, All, IfSome, IsSomeAnd, Some};

use itoa::Buffer;
use std::str;

/// What follows the text `first`, where it stands at the beginning.
pub fn after<'a>(text: &'a [u8], first: &[u8]) -> Option<&'a [u8]>
    ensures found { IfSome result (λ rest. text.now ≡ first.now ++ rest.now) }
    ensures only { (rest : List ℕ) → text.now ≡ first.now ++ rest → IsSomeAnd result (λ r. r.now ≡ rest) }
{
    text.strip_prefix(first)
}

/// What stands before the text `last`, where it stands at the end.
pub fn before<'a>(text: &'a [u8], last: &[u8]) -> Option<&'a [u8]>
    ensures found { IfSome result (λ front. text.now ≡ front.now ++ last.now) }
    ensures only { (front : List ℕ) → text.now ≡ front ++ last.now → IsSomeAnd result (λ r. r.now ≡ front) }
{
    text.strip_suffix(last)
}

/// What stands before and after the first byte that is `mark`.
pub fn cut_at(text: &[u8], mark: u8) -> Option<(&[u8], &[u8])>
    ensures found { IfSome result (λ parts. text.now ≡ parts.0.now ++ mark ∷ parts.1.now) }
    ensures only { (front back : List ℕ) → All (λ b. b ≢ mark) front → text.now ≡ front ++ mark ∷ back →
        IsSomeAnd result (λ parts. (parts.0.now ≡ front) × (parts.1.now ≡ back)) }
{
    for (i, byte) in text.iter().enumerate() {
        if *byte == mark {
            return Some((&text[..i], &text[i + 1..]));
        }
    }
    None
}

// The number that a text of digits is, perhaps with more than one spelling.
fn parse(text: &[u8]) -> Option<u64>
    ensures { (n : ℕ) → n < 2 ^ 64 → decimal n ≡ text.now → result ≡ Some n }
{
    match str::from_utf8(text) {
        Ok(digits) => match digits.parse::<u64>() {
            Ok(n) => Some(n),
            Err(_) => None,
        },
        Err(_) => None,
    }
}

/// The number that the text is in decimal, without a sign or leading zeros.
pub fn read_number(text: &[u8]) -> Option<u64>
    ensures found { IfSome result (λ n. decimal n ≡ text.now) }
    ensures only { (n : ℕ) → n < 2 ^ 64 → decimal n ≡ text.now → result ≡ Some n }
{
    let n = parse(text)?;
    let mut buffer = Buffer::new();
    if buffer.format(n).as_bytes() == text {
        Some(n)
    } else {
        None
    }
}
