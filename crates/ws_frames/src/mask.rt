//! The mask that hides a payload (RFC 6455, section 5.3).
ghost use Rattle.std.specs.Prelude.{◌≡◌, ℕ, ◌+◌, ◌%◌, ◌≤◌, List, length};
ghost use Rattle.model_h1.specs.FrameText.{unmask};
ghost use Rattle.ws_frames.specs.MaskLanes.{IsMaskedUpTo, lanes_of};

use std::simd::prelude::*;

/// How many bytes are masked at once.
const LANES: usize = 32;

/// How many are while that many are left.
const WORD: usize = 4;

/// Puts the mask on a payload, or takes it off: byte k is combined with mask byte k mod 4. Twice is not at all.
pub fn apply_mask(buf: &mut [u8], mask: [u8; 4])
    ensures masked { buf.new ≡ unmask mask 0 buf.old }
    ensures twice { unmask mask 0 buf.new ≡ buf.old }
{
    apply_mask_fast32(buf, mask);
}

/// As [`apply_mask`], 32 bytes at a time, then four, then one.
pub fn apply_mask_fast32(buf: &mut [u8], mask: [u8; 4])
    ensures masked { buf.new ≡ unmask mask 0 buf.old }
    ensures twice { unmask mask 0 buf.new ≡ buf.old }
{
    let lanes = mask_lanes(mask);
    let mut at = 0;
    while buf.len() - at >= LANES {
        mask_chunk(buf, at, lanes);
        at += LANES;
    }
    let word = u8x4::from_array(mask);
    while buf.len() - at >= WORD {
        mask_word(buf, at, word);
        at += WORD;
    }
    mask_rest(buf, at, mask);
}

/// As [`apply_mask`], for a part of a payload that begins with the byte of the number `from`.
pub fn mask_from(buf: &mut [u8], mask: [u8; 4], from: usize)
    ensures masked { buf.new ≡ unmask mask from buf.old }
    ensures twice { unmask mask from buf.new ≡ buf.old }
{
    let [first, second, third, fourth] = mask;
    let turned = match from % 4 {
        0 => mask,
        1 => [second, third, fourth, first],
        2 => [third, fourth, first, second],
        _ => [fourth, first, second, third],
    };
    apply_mask_fast32(buf, turned);
}

/// The mask, as often as the lanes take it.
#[inline(always)]
fn mask_lanes(mask: [u8; 4]) -> u8x32
    ensures { result ≡ lanes_of mask }
{
    let [a, b, c, d] = mask;
    u8x32::from_array([
        a, b, c, d, a, b, c, d, a, b, c, d, a, b, c, d, a, b, c, d, a, b, c, d, a, b, c, d, a, b,
        c, d,
    ])
}

/// Masks the bytes of one load.
#[inline(always)]
fn mask_chunk(buf: &mut [u8], at: usize, lanes: u8x32)
    requires { at + LANES ≤ length buf.old }
    ensures { (mask all : List ℕ) → lanes ≡ lanes_of mask → length mask ≡ 4 → at % 4 ≡ 0
        → IsMaskedUpTo mask all at buf.old → IsMaskedUpTo mask all (at + LANES) buf.new }
{
    let masked = u8x32::from_slice(&buf[at..]) ^ lanes;
    masked.copy_to_slice(&mut buf[at..]);
}

/// Masks four bytes.
#[inline(always)]
fn mask_word(buf: &mut [u8], at: usize, word: u8x4)
    requires { at + WORD ≤ length buf.old }
    ensures { (mask all : List ℕ) → word ≡ mask → length mask ≡ 4 → at % 4 ≡ 0
        → IsMaskedUpTo mask all at buf.old → IsMaskedUpTo mask all (at + WORD) buf.new }
{
    let masked = u8x4::from_slice(&buf[at..]) ^ word;
    masked.copy_to_slice(&mut buf[at..]);
}

/// Masks the bytes from here on, one by one.
fn mask_rest(buf: &mut [u8], from: usize, mask: [u8; 4])
    requires { from ≤ length buf.old }
    ensures { (all : List ℕ) → IsMaskedUpTo mask all from buf.old → buf.new ≡ unmask mask 0 all }
{
    let mut at = from;
    while at < buf.len() {
        buf[at] ^= mask[at % 4];
        at += 1;
    }
}
