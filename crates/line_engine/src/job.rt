//! The job that the words of the command line ask for.

ghost use Rattle.std.specs.Prelude.{◌≡◌, ◌≤◌, ◌⊎◌, ◌↔◌, [], ◌∷◌, ℕ, List, true, false, IsTrue, decimal, IfSome, IsNone};
ghost use Rattle.line_engine.specs.Jobs.{IsJob};
ghost use Rattle.line_engine.specs.Word.{AreBad, is_check, is_serve};

use io_edges::Word;
use itoa::Buffer;

/// The greatest count of a made input.
const MOST_MADE: u64 = 1_000_000;

/// What the words ask for.
#[derive(Clone, Copy, Debug, PartialEq, Eq)]
pub(crate) enum Job {
    /// Answer the requests of the source, over a store.
    Serve,
    /// Look whether a store is sound.
    Check,
    /// Write the made input of a number and a count.
    Make { number: u64, count: u32 },
    /// Answer it over an empty store in memory.
    RunMade { number: u64, count: u32 },
}

/// The job that the words ask for, or None where they have none of its shapes.
pub(crate) fn job_of(words: &[Word]) -> Option<Job>
    ensures some { IfSome result (λ job. IsJob job words.now) }
    ensures none { IsNone result → AreBad words.now }
{
    match words {
        [command, store] => store_job(command, store),
        [command, number, count] => made_job(command, number, count),
        _ => None,
    }
}

/// The path of the store, which the words name where they are `serve STORE` or `check STORE`.
pub fn store_path(words: &[Word]) -> Option<&Word>
    ensures some { IfSome result (λ path. (command : List ℕ) × (words.now ≡ command ∷ path.now ∷ []) × ((is_serve words.now ≡ true) ⊎ (is_check words.now ≡ true))) }
    ensures none { IsNone result → (is_serve words.now ≡ false) × (is_check words.now ≡ false) }
{
    match words {
        [command, store] => match store_job(command, store) {
            Some(_job) => Some(store),
            None => None,
        },
        _ => None,
    }
}

fn store_job(command: &Word, store: &Word) -> Option<Job>
    ensures some { IfSome result (λ job. IsJob job (command.now ∷ store.now ∷ [])) }
    ensures serves { IfSome result (λ job. (is_serve (command.now ∷ store.now ∷ []) ≡ true) ⊎ (is_check (command.now ∷ store.now ∷ []) ≡ true)) }
    ensures none { IsNone result → AreBad (command.now ∷ store.now ∷ []) }
{
    if store.as_bytes().is_empty() {
        return None;
    }
    match command.as_bytes() {
        b"serve" => Some(Job::Serve),
        b"check" => Some(Job::Check),
        _ => None,
    }
}

fn made_job(command: &Word, number: &Word, count: &Word) -> Option<Job>
    ensures some { IfSome result (λ job. IsJob job (command.now ∷ number.now ∷ count.now ∷ [])) }
    ensures none { IsNone result → AreBad (command.now ∷ number.now ∷ count.now ∷ []) }
{
    let number = number_in(number, u64::MAX)?;
    let count = number_in(count, MOST_MADE)? as u32;
    if command.as_bytes() == b"make".as_slice() {
        Some(Job::Make { number, count })
    } else if command.as_bytes() == b"run-made".as_slice() {
        Some(Job::RunMade { number, count })
    } else {
        None
    }
}

// The number that a word is, in the digits that it is printed in: so without a sign, and without a leading zero.
fn number_in(word: &Word, most: u64) -> Option<u64>
    ensures some { IfSome result (λ number. (word.now ≡ decimal number) × (number ≤ most)) }
    ensures none { IsNone result → (number : ℕ) → number ≤ most → word.now ≡ decimal number → ⊥ }
{
    let Ok(number) = word.as_str().parse::<u64>() else {
        return None;
    };
    if number <= most && is_printed(number, word) {
        Some(number)
    } else {
        None
    }
}

// Whether the word is this number as it is printed.
fn is_printed(number: u64, word: &Word) -> bool
    ensures { IsTrue result ↔ (word.now ≡ decimal number) }
{
    let mut digits = Buffer::new();
    digits.format(number) == word.as_str()
}
