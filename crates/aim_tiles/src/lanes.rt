//! Words that share a bit.

ghost use Rattle.std.specs.Prelude.{◌≡◌, ℕ, ◌+◌, ◌<◌, ◌≤◌, length, IfSome, IfNone, false};
ghost use Rattle.aim_tiles.specs.Words.{AreApart, Meet};

use std::simd::prelude::*;

// How many words are tested at once.
const LANES: usize = 4;

// Whether one of four words from `at` on shares a bit with the other list's.
#[inline]
fn do_four_meet(left: &[u64], right: &[u64], at: usize) -> bool
    requires left { at + 4 ≤ length left.now }
    requires right { at + 4 ≤ length right.now }
    ensures { result ≡ false → (k : ℕ) → at ≤ k → k < at + 4 → AreApart left.now right.now k }
{
    let both = u64x4::from_slice(&left[at..]) & u64x4::from_slice(&right[at..]);
    both.reduce_or() != 0
}

// The first place from `at` on at which the words share a bit, one word after the other.
#[inline]
fn plain_meeting(left: &[u64], right: &[u64], at: usize) -> Option<usize>
    requires same { length left.now ≡ length right.now }
    ensures found { IfSome result (λ i. (i < length left.now) × Meet left.now right.now i) }
    ensures first { IfSome result (λ i. (k : ℕ) → at ≤ k → k < i → AreApart left.now right.now k) }
    ensures from { IfSome result (λ i. at ≤ i) }
    ensures none { IfNone result ((k : ℕ) → at ≤ k → k < length left.now → AreApart left.now right.now k) }
{
    for i in at..left.len() {
        if left[i] & right[i] != 0 {
            return Some(i);
        }
    }
    None
}

/// The first place from `at` on at which the words share a bit, if there is one.
#[inline]
pub(crate) fn meeting_from(left: &[u64], right: &[u64], at: usize) -> Option<usize>
    requires same { length left.now ≡ length right.now }
    requires within { at ≤ length left.now }
    ensures found { IfSome result (λ i. (i < length left.now) × Meet left.now right.now i) }
    ensures first { IfSome result (λ i. (k : ℕ) → at ≤ k → k < i → AreApart left.now right.now k) }
    ensures from { IfSome result (λ i. at ≤ i) }
    ensures none { IfNone result ((k : ℕ) → at ≤ k → k < length left.now → AreApart left.now right.now k) }
{
    let mut next = at;
    while LANES <= left.len() - next && !do_four_meet(left, right, next) {
        next += LANES;
    }
    plain_meeting(left, right, next)
}

/// The first place at which the two words share a bit, if there is one.
pub fn first_meeting(left: &[u64], right: &[u64]) -> Option<usize>
    requires { length left.now ≡ length right.now }
    ensures found { IfSome result (λ i. (i < length left.now) × Meet left.now right.now i) }
    ensures first { IfSome result (λ i. (k : ℕ) → k < i → AreApart left.now right.now k) }
    ensures none { IfNone result ((k : ℕ) → k < length left.now → AreApart left.now right.now k) }
{
    meeting_from(left, right, 0)
}
