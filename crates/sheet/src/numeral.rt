ghost use Rattle.std.specs.Prelude.{◌≡◌, IfOk, vec_items};
ghost use Rattle.std.specs.Option.{option_map};
ghost use Rattle.sheet.specs.Numeral.{radix, digit_of, appended_of, number_of, byte_of, bytes_of};

use std::alloc::{AllocError, Global};

#[derive(Clone, Copy)]
pub enum Base {
    Decimal,
    Hexadecimal,
}

impl Base {
    fn radix(self) -> u32
        ensures { result ≡ radix self }
    {
        match self {
            Base::Decimal => 10,
            Base::Hexadecimal => 16,
        }
    }

    fn digit(self, byte: u8) -> Option<u32>
        ensures { result ≡ digit_of self byte }
    {
        char::from(byte).to_digit(self.radix())
    }
}

// `value` with the digit `byte` behind it, where that is at most `limit`.
fn appended(value: u64, byte: u8, base: Base, limit: u64) -> Option<u64>
    ensures { result ≡ appended_of base limit value byte }
{
    let digit = base.digit(byte)?;
    let longer = value
        .checked_mul(u64::from(base.radix()))?
        .checked_add(u64::from(digit))?;
    (longer <= limit).then_some(longer)
}

// The number that `word` writes, where it is one and at most `limit`. `from_str_radix` reads signs too, and has no limit.
#[tactic(auto, using(crate::proofs::Positions::no_word))]
pub fn number(word: &[u8], base: Base, limit: u64) -> Option<u64>
    ensures { result ≡ number_of base limit word.now }
{
    if word.is_empty() {
        return None;
    }
    // Further digits only make it larger, so a value past the limit is past it for good.
    word.iter()
        .try_fold(0, |value, byte| appended(value, *byte, base, limit))
}

// The byte that two hexadecimal digits write.
fn byte(high: u8, low: u8) -> Option<u8>
    ensures { result ≡ byte_of high low }
{
    let high = Base::Hexadecimal.digit(high)?;
    let low = Base::Hexadecimal.digit(low)?;
    Some((high * 16 + low) as u8)
}

// The bytes that `word` writes by pairs of hexadecimal digits, the high half first. Memory is taken only for pairs that
// have been read: `hex` decodes into room that is there before it looks at the first digit.
pub fn byte_pairs(heap: Global, word: &[u8]) -> Result<Option<Vec<u8>>, AllocError>
    ensures { IfOk result (λ bytes. option_map vec_items bytes ≡ bytes_of word.now) }
{
    let mut bytes = Vec::new(heap);
    let mut rest = word;
    while let [high, low, after @ ..] = rest {
        let Some(byte) = byte(*high, *low) else {
            return Ok(None);
        };
        bytes.push(byte)?;
        rest = after;
    }
    if !rest.is_empty() {
        return Ok(None);
    }
    Ok(Some(bytes))
}
