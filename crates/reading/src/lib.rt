// Lines of numbers, as people and programs write them.
#![tactic(auto)]

ghost use Rattle.reading.specs.Reading.{with_digit};
ghost use Rattle.reading.specs.Spaced.{Spells, SpellsNone, SpelledOnce};
ghost use Rattle.std.specs.Prelude.{◌≡◌, ◌≤◌, IfOk, MatchOption};

use std::alloc::{AllocError, Global};

/// The numbers of a line: decimal, without leading zeros, 0 to 255, one blank between.
/// None where the line is no such list: it is no error, so `return` gives it back and not `?`.
#[tactic(auto, using(crate::proofs::Readings::read_none, crate::proofs::Readings::all_read, crate::proofs::Readings::no_bytes, crate::proofs::Readings::byte_more, crate::proofs::Readings::digit_more, crate::proofs::Readings::front_more, std::proofs::lemmas::List::drop_more, std::proofs::lemmas::List::drop_all))]
pub fn read_spaced(heap: Global, line: &[u8]) -> Result<Option<Vec<u8>>, AllocError>
    ensures { IfOk result (λ o. MatchOption o (SpellsNone line.now) (λ v. Spells line.now v.items)) }
{
    // byte by byte: `parse` takes leading zeros and signs, which are no such list
    let mut numbers = Vec::new(heap);
    let mut number = None;
    for byte in line {
        match *byte {
            b'0'..=b'9' => {
                number = digit_behind(number, *byte);
                if number.is_none() {
                    return Ok(None);
                }
            }
            b' ' => {
                let Some(n) = number else {
                    return Ok(None);
                };
                numbers.push(n)?;
                number = None;
            }
            _ => {
                return Ok(None);
            }
        }
    }
    let Some(n) = number else {
        return Ok(None);
    };
    numbers.push(n)?;
    Ok(Some(numbers))
}

// The number with one digit more behind it; none behind a leading zero, or where it would be no byte.
fn digit_behind(number: Option<u8>, digit: u8) -> Option<u8>
    requires { (48 ≤ digit) × (digit ≤ 57) }
    ensures { result ≡ with_digit number digit }
{
    let value = digit - b'0';
    match number {
        None => Some(value),
        Some(0) => None,
        Some(n) => n.checked_mul(10)?.checked_add(value),
    }
}

/// What holds of lines of numbers.
pub fn laws()
    ensures { SpelledOnce }
{}
