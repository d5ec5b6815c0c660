//! The numbers of the attributes that a bitmap names (RFC 8881, section 3.3.7).

ghost use Rattle.std.specs.Prelude.{◌≡◌, ◌<◌, ◌≤◌, ◌++◌, length, IfOk, OnOk};
ghost use Rattle.model.specs.Attributes.Attribute.{attributes_of, attributes_of_word, is_among};

use std::alloc::{AllocError, Global};

/// Whether a bitmap, of any length, names an attribute.
pub fn is_asked(bitmap: &[u32], attribute: u32) -> bool
    ensures { result ≡ is_among (attributes_of bitmap.now) attribute }
{
    match bitmap.get(attribute as usize / 32) {
        Some(word) => (*word >> (attribute % 32)) % 2 == 1,
        None => false,
    }
}

/// The numbers, rising: bit m of word n represents attribute 32 n + m.
pub fn numbers_of(alloc: Global, bitmap: &[u32]) -> Result<Vec<u32>, AllocError>
    requires { length bitmap.now ≤ 8 }
    ensures { IfOk result (λ numbers. numbers.items ≡ attributes_of bitmap.now) }
{
    let mut numbers = Vec::new(alloc);
    let mut first = 0;
    for word in bitmap {
        push_numbers(&mut numbers, first, *word)?;
        first += 32;
    }
    Ok(numbers)
}

// Puts the numbers of a word after others; the word's first bit represents this one.
fn push_numbers(numbers: &mut Vec<u32>, first: u32, word: u32) -> Result<(), AllocError>
    requires { first < 256 }
    ensures { OnOk result (numbers.new.items ≡ numbers.old.items ++ attributes_of_word first word) }
{
    for bit in 0..32 {
        if (word >> bit) % 2 == 1 {
            numbers.push(first + bit)?;
        }
    }
    Ok(())
}
