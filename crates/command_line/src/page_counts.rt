//! How many pages a word of a command line asks for.
ghost use Rattle.std.specs.Prelude.{◌≡◌, List, ℕ, MatchOption};
ghost use Rattle.std.specs.Str.Parse.{IsNumeral};
ghost use Rattle.command_line.specs.Commands.{AreWholePages, WritesCount};
ghost use Rattle.command_line.specs.Words.{AsksPages, HasUnit};

use page_store::MAX_PAGES;

/// The bytes of a page.
const PAGE: u64 = 4_096;

/// The pages that a word asks for, 1 to 1,048,576: their number, one to ten digits, or with K, M or G after it a number of bytes, as many as
/// 1,024 or that again each, which has room for this many pages.
pub fn pages_of(word: &str) -> Option<u32>
    ensures { MatchOption result ((n : ℕ) → ¬ AsksPages word.now n) (AsksPages word.now) }
{
    let (digits, unit) = unit_of(word);
    let Some(number) = count_of(digits) else {
        return None;
    };
    whole_pages(number, unit)
}

/// The pages for which this many have room, of so many bytes each, 1 to 1,048,576.
fn whole_pages(number: u64, unit: u64) -> Option<u32>
    ensures { MatchOption result ((n : ℕ) → ¬ AreWholePages number unit n) (AreWholePages number unit) }
{
    let pages = number.saturating_mul(unit) / PAGE;
    if (1..=u64::from(MAX_PAGES)).contains(&pages) {
        Some(pages as u32)
    } else {
        None
    }
}

/// The number that one to ten digits write.
fn count_of(word: &str) -> Option<u64>
    ensures { MatchOption result ((n : ℕ) → ¬ WritesCount word.now n) (WritesCount word.now) }
{
    if word.len() > 10 || word.as_bytes().starts_with(b"+") {
        return None;
    }
    let Ok(number) = word.parse::<u64>() else {
        return None;
    };
    Some(number)
}

/// A word without the letter of a unit at its end, and how many bytes each of what it counts has.
fn unit_of(word: &str) -> (&str, u64)
    ensures unit { HasUnit word.now result.0.now result.1 }
    ensures alone { (digits : List ℕ) (bytes : ℕ) → HasUnit word.now digits bytes → IsNumeral 10 digits
        → (digits ≡ result.0.now) × (bytes ≡ result.1) }
{
    if let Some(digits) = word.strip_suffix('K') {
        (digits, 1_024)
    } else if let Some(digits) = word.strip_suffix('M') {
        (digits, 1_048_576)
    } else if let Some(digits) = word.strip_suffix('G') {
        (digits, 1_073_741_824)
    } else {
        (word, PAGE)
    }
}
