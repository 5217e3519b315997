//! Bits in a list of words of 64. Bit `at` is bit `at % 64` of word `at / 64`.
ghost use Rattle.std.specs.Prelude.{◌≡◌, ℕ, ◌/◌, ◌<◌, ◌≤◌, ◌↔◌, length, slice_index, IsTrue, IfSome, IfNone};
ghost use Rattle.area_space.specs.Bits.{bit_of, SetsBit, ClearsBit};

// Makes a bit 1.
pub(crate) fn set_bit(bits: &mut [u64], at: u32)
    requires { at / 64 < length bits.old }
    ensures { SetsBit bits.old bits.new at }
{
    bits[(at / 64) as usize] |= 1 << (at % 64);
}

// Makes a bit 0.
pub(crate) fn clear_bit(bits: &mut [u64], at: u32)
    requires { at / 64 < length bits.old }
    ensures { ClearsBit bits.old bits.new at }
{
    bits[(at / 64) as usize] &= !(1 << (at % 64));
}

// Whether a bit is 1.
pub(crate) fn has_bit(bits: &[u64], at: u32) -> bool
    requires { at / 64 < length bits.now }
    ensures { IsTrue result ↔ (bit_of bits.now at ≡ 1) }
{
    (bits[(at / 64) as usize] >> (at % 64)) & 1 == 1
}

// The lowest bit that is 1.
pub(crate) fn lowest_bit(bits: &[u64]) -> Option<u32>
    requires { length bits.now ≤ 16384 }
    ensures some { IfSome result (λ at. (bit_of bits.now at ≡ 1) × (at / 64 < length bits.now)) }
    ensures lowest { IfSome result (λ at. (other : ℕ) → other < at → bit_of bits.now other ≡ 0) }
    ensures none { IfNone result ((word : ℕ) → slice_index bits.now word ≡ 0) }
{
    for word in 0..bits.len() {
        if bits[word] != 0 {
            return Some(word as u32 * 64 + bits[word].trailing_zeros());
        }
    }
    None
}

// Makes every bit 0.
pub(crate) fn clear_words(words: &mut [u64])
    ensures size { length words.new ≡ length words.old }
    ensures cleared { (word : ℕ) → slice_index words.new word ≡ 0 }
{
    for word in 0..words.len() {
        words[word] = 0;
    }
}
