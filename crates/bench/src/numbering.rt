// Every list of up to five heads, by its number.
ghost use Rattle.bench.specs.Numbering.{digit};
ghost use Rattle.std.specs.Prelude.{◌≡◌, ℕ, ◌+◌, ◌^◌, ◌<◌, length, slice_index};

/// How many lists of so many heads there are.
pub fn lists(words: u8) -> usize
    ensures { (words + 1) ^ words < 2 ^ 64 → result ≡ (words + 1) ^ words }
{
    let base = usize::from(words) + 1;
    base.checked_pow(u32::from(words)).unwrap_or(0)
}

/// The list of heads with this number: its digits, to a base of one more than the words.
pub fn list(number: usize, words: u8) -> [u8; 5]
    ensures { (place : ℕ) → place < 5 → slice_index result place ≡ digit (words + 1) place number }
{
    let base = usize::from(words) + 1;
    let mut rest = number;
    let mut heads = [0; 5];
    for head in heads.iter_mut() {
        // a remainder by at most 256 fits a byte
        *head = (rest % base) as u8;
        rest /= base;
    }
    heads
}
