// Stands for the crate rustc-hash: a hash of 64 bits takes a word at a time. rowan finds by it what it shares.

#![tactic(auto)]

ghost use Rattle.std.specs.Prelude.{◌≡◌, ◌*◌, ◌%◌, ◌^◌};
ghost use Rattle.definitions.specs.Hash.{rotate_left5, add_word};

// By halves, since a product that may not fit is refused; that of the upper halves goes wholly out.
// LLVM sees through it, and makes one multiplication of it, as long as it does not know `b` beforehand: with every call's `b` alike it would take
// the constant's halves first and be left with three. So the rotation calls it too, by another factor.
pub fn wrapping_mul(a: u64, b: u64) -> u64
    ensures { result ≡ (a * b) % 2 ^ 64 }
{
    let a0 = a % 0x1_0000_0000;
    let a1 = a / 0x1_0000_0000;
    let b0 = b % 0x1_0000_0000;
    let b1 = b / 0x1_0000_0000;
    let mid = std::num::wrapping_add_u64(a1 * b0, a0 * b1);
    std::num::wrapping_add_u64(a0 * b0, (mid % 0x1_0000_0000) * 0x1_0000_0000)
}

pub fn rotate_left5(h: u64) -> u64
    ensures { result ≡ rotate_left5 h }
{
    wrapping_mul(h, 32) | (h >> 59)
}

// The step of FxHasher.
pub fn add_word(h: u64, w: u64) -> u64
    ensures { result ≡ add_word h w }
{
    wrapping_mul(rotate_left5(h) ^ w, 0x517c_c1b7_2722_0a95)
}
