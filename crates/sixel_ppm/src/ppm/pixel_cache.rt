//! A cache of the registers of earlier pixels, by their samples.

ghost use Rattle.std.specs.Prelude.{◌≡◌, ◌≤◌, ◌<◌, ◌+◌, ◌-◌, ◌*◌, ◌++◌, ℕ, IfSome, List, Option, true, length};
ghost use Rattle.std.specs.Prelude.{false, get_or, replicate, slice_index, take, vec_capacity, vec_len};
ghost use Rattle.sixel_ppm.specs.PpmPixelCache.{AreSame, GoesOn, IsHit, Knows, PutsHits, entry_of, place_of};
ghost use Rattle.sixel_ppm.specs.PpmPixelCache.{second_of};
ghost use Rattle.sixel_model.specs.declared.colour.Parts.{Parts};

use std::simd::prelude::*;

/// How many pixels the cache has room for.
const PLACES: usize = 4096;

/// What place 0 holds while it is empty: an entry of other places. Any other place is empty with 0, which belongs only in
/// place 0.
const ELSEWHERE: u32 = 256;

/// How many pixels are compared at once, each with the one before it.
const GROUP: usize = 16;

/// How many pixels are looked up before one test of all of them.
const FOUR: usize = 4;

/// The registers of some earlier pixels. A multiplicative hash of the samples gives two places of a pixel. It is kept in
/// the first one, and the entry there moves to its own second place; a pixel with other samples may overwrite it.
///
/// An entry has the register in its lowest byte, and the samples in those above.
#[derive(Debug, Drop)]
pub(crate) struct PixelCache {
    entries: [u32; PLACES],
}

/// The entry of a pixel with register 0.
#[inline]
fn key_of(red: u8, green: u8, blue: u8) -> u32
    ensures value { result ≡ entry_of red green blue 0 }
    ensures room { result + 256 ≤ 4294967296 }
{
    256 * (red as u32 + 256 * (green as u32 + 256 * blue as u32))
}

/// The entry with register 0 of the pixel at the beginning of the bytes. One load takes the byte after it, too.
#[inline]
fn key_at(bytes: &[u8], at: usize) -> u32
    requires { at + 4 ≤ length bytes.now }
    ensures value { result ≡ entry_of (get_or bytes.now at 0) (get_or bytes.now (at + 1) 0)
        (get_or bytes.now (at + 2) 0) 0 }
    ensures room { result + 256 ≤ 4294967296 }
{
    u32x1::from_le_bytes(u8x4::from_slice(&bytes[at..])).to_array()[0] << 8
}

/// The first place of a pixel, by its entry with register 0. The multiplication spreads those that are near each other.
#[inline]
#[tactic(auto, unfolding(crate::specs::PpmPixelCache::place_of))]
fn place_of(key: u32) -> usize
    ensures value { result ≡ place_of key }
    ensures within { result < PLACES }
{
    (key.wrapping_mul(0x9E37_79B1) >> 20) as usize
}

/// The second place of a pixel, by its entry with register 0: further bits of the same product. No two pixels have both
/// places in common.
#[inline]
#[tactic(auto, unfolding(crate::specs::PpmPixelCache::second_of))]
fn second_of(key: u32) -> usize
    ensures value { result ≡ second_of key }
    ensures within { result < PLACES }
{
    (key.wrapping_mul(0x9E37_79B1) >> 8) as usize % PLACES
}

/// Whether all four of what was found are registers.
#[inline]
fn are_registers(first: u32, second: u32, third: u32, fourth: u32) -> bool
    ensures { result ≡ true → (first < 256) × (second < 256) × (third < 256) × (fourth < 256) }
{
    (first | second | third | fourth) < 256
}

/// Whether the 16 bytes at `at` are the same as those at `from`.
fn are_same(bytes: &[u8], from: usize, at: usize) -> bool
    requires from { from + 16 ≤ length bytes.now }
    requires at { at + 16 ≤ length bytes.now }
    ensures { result ≡ true → AreSame 16 from at bytes.now }
{
    let before = u8x16::from_slice(&bytes[from..]);
    u8x16::from_slice(&bytes[at..]).simd_ne(before).to_bitmask() == 0
}

/// Whether the group of pixels after the first `count` repeats the last one of these.
fn is_repeated(bytes: &[u8], count: usize) -> bool
    requires some { 0 < count }
    requires within { 3 * (count + GROUP) ≤ length bytes.now }
    ensures { result ≡ true → AreSame 48 (3 * (count - 1)) (3 * count) bytes.now }
{
    let from = 3 * (count - 1);
    are_same(bytes, from, from + 3)
        && are_same(bytes, from + 16, from + 19)
        && are_same(bytes, from + 32, from + 35)
}

/// Adds the last register once more for each pixel of a group.
fn repeat_last(registers: &mut Vec<u8>)
    requires some { 0 < vec_len registers.old }
    requires room { vec_len registers.old + GROUP ≤ vec_capacity registers.old }
    ensures len { vec_len registers.new ≡ vec_len registers.old + GROUP }
    ensures capacity { vec_capacity registers.old ≤ vec_capacity registers.new }
    ensures items { registers.new.items ≡ registers.old.items
        ++ replicate GROUP (slice_index registers.old.items (length registers.old.items - 1)) }
{
    let register = registers[registers.len() - 1];
    let _ = registers.extend_from_slice(&[register; GROUP]);
}

impl PixelCache {
    /// An empty cache.
    pub(crate) fn new() -> PixelCache
        ensures { (maxval : ℕ) (palette : List (Option Parts)) → Knows result maxval palette }
    {
        let mut entries = [0; PLACES];
        entries[0] = ELSEWHERE;
        PixelCache { entries }
    }

    /// The register of a pixel, by its entry with register 0, or a number above 255 if the cache doesn't have it.
    #[inline]
    fn found(&self, key: u32) -> u32
        requires { key + 256 ≤ 4294967296 }
        ensures { result < 256 → get_or self.now.entries (place_of key) 0 ≡ key + result }
    {
        self.entries[place_of(key)].wrapping_sub(key)
    }

    /// The same, by the pixel's second place.
    #[inline]
    fn found_second(&self, key: u32) -> u32
        requires { key + 256 ≤ 4294967296 }
        ensures { result < 256 → get_or self.now.entries (second_of key) 0 ≡ key + result }
    {
        self.entries[second_of(key)].wrapping_sub(key)
    }

    /// The register of a pixel, if the cache has it.
    pub(crate) fn register_of(&self, red: u8, green: u8, blue: u8) -> Option<u8>
        ensures { (maxval : ℕ) (palette : List (Option Parts)) → Knows self.now maxval palette →
            IfSome result (IsHit maxval palette red green blue) }
    {
        let key = key_of(red, green, blue);
        let found = self.found(key);
        if found < 256 {
            return Some(found as u8);
        }
        let second = self.found_second(key);
        if second < 256 {
            Some(second as u8)
        } else {
            None
        }
    }

    /// Moves the entry in this place to its second place, if this is its first.
    fn move_entry(&mut self, place: usize)
        requires { place < PLACES }
        ensures { (maxval : ℕ) (palette : List (Option Parts)) → Knows self.old maxval palette →
            Knows self.new maxval palette }
    {
        let entry = self.entries[place];
        let key = entry - entry % 256;
        if place_of(key) == place {
            self.entries[second_of(key)] = entry;
        }
    }

    /// Stores the register of a pixel in its first place.
    pub(crate) fn keep(&mut self, red: u8, green: u8, blue: u8, register: u8)
        ensures { (maxval : ℕ) (palette : List (Option Parts)) → Knows self.old maxval palette →
            IsHit maxval palette red green blue register → Knows self.new maxval palette }
    {
        let key = key_of(red, green, blue);
        let place = place_of(key);
        self.move_entry(place);
        self.entries[place] = key + register as u32;
    }

    /// Adds the registers of the pixels from `count` up to `end`, and stops at the first one that isn't cached. Returns
    /// how many pixels are done then.
    fn put_each(&self, bytes: &[u8], count: usize, end: usize, registers: &mut Vec<u8>) -> usize
        requires ordered { count ≤ end }
        requires within { 3 * end ≤ length bytes.now }
        requires room { vec_len registers.old + end ≤ vec_capacity registers.old + count }
        ensures from { count ≤ result }
        ensures most { result ≤ end }
        ensures len { vec_len registers.new + count ≡ vec_len registers.old + result }
        ensures capacity { vec_capacity registers.old ≤ vec_capacity registers.new }
        ensures put { GoesOn self.now bytes.now count result registers.old.items registers.new.items }
    {
        for next in count..end {
            let at = 3 * next;
            match self.register_of(bytes[at], bytes[at + 1], bytes[at + 2]) {
                Some(register) => registers.push_reserved(register),
                None => return next,
            }
        }
        end
    }

    /// The register of pixel `index`, or a number above 255 if the cache doesn't have it.
    #[inline]
    fn found_at(&self, bytes: &[u8], index: usize) -> u32
        requires { 3 * index + 4 ≤ length bytes.now }
        ensures { (maxval : ℕ) (palette : List (Option Parts)) → Knows self.now maxval palette → result < 256 →
            IsHit maxval palette (get_or bytes.now (3 * index) 0) (get_or bytes.now (3 * index + 1) 0)
            (get_or bytes.now (3 * index + 2) 0) result }
    {
        self.found(key_at(bytes, 3 * index))
    }

    /// Adds the registers of the four pixels from `count` on, if all are cached. Returns whether they are.
    #[inline]
    fn put_four(&self, bytes: &[u8], count: usize, registers: &mut Vec<u8>) -> bool
        requires within { 3 * (count + FOUR) < length bytes.now }
        requires room { vec_len registers.old + FOUR ≤ vec_capacity registers.old }
        ensures same { result ≡ false → registers.new ≡ registers.old }
        ensures len { result ≡ true → vec_len registers.new ≡ vec_len registers.old + FOUR }
        ensures capacity { vec_capacity registers.old ≤ vec_capacity registers.new }
        ensures put { result ≡ true →
            GoesOn self.now bytes.now count (count + FOUR) registers.old.items registers.new.items }
    {
        let first = self.found_at(bytes, count);
        let second = self.found_at(bytes, count + 1);
        let third = self.found_at(bytes, count + 2);
        let fourth = self.found_at(bytes, count + 3);
        if !are_registers(first, second, third, fourth) {
            return false;
        }
        registers.push_reserved(first as u8);
        registers.push_reserved(second as u8);
        registers.push_reserved(third as u8);
        registers.push_reserved(fourth as u8);
        true
    }

    /// Adds the registers of the pixels from `count` up to `end`, four at a time, and stops before the first four that
    /// aren't all cached. Returns how many pixels are done then.
    fn put_fours(&self, bytes: &[u8], count: usize, end: usize, registers: &mut Vec<u8>) -> usize
        requires ordered { count ≤ end }
        requires within { 3 * end < length bytes.now }
        requires room { vec_len registers.old + end ≤ vec_capacity registers.old + count }
        ensures from { count ≤ result }
        ensures most { result ≤ end }
        ensures len { vec_len registers.new + count ≡ vec_len registers.old + result }
        ensures capacity { vec_capacity registers.old ≤ vec_capacity registers.new }
        ensures put { GoesOn self.now bytes.now count result registers.old.items registers.new.items }
    {
        let mut next = count;
        while next + FOUR <= end {
            if !self.put_four(bytes, next, registers) {
                return next;
            }
            next += FOUR;
        }
        next
    }

    /// Adds the registers of the pixels from `count` up to `end`, and stops at the first one that isn't cached. Returns
    /// how many pixels are done then.
    fn put_most(&self, bytes: &[u8], count: usize, end: usize, registers: &mut Vec<u8>) -> usize
        requires ordered { count ≤ end }
        requires within { 3 * end ≤ length bytes.now }
        requires room { vec_len registers.old + end ≤ vec_capacity registers.old + count }
        ensures from { count ≤ result }
        ensures most { result ≤ end }
        ensures len { vec_len registers.new + count ≡ vec_len registers.old + result }
        ensures capacity { vec_capacity registers.old ≤ vec_capacity registers.new }
        ensures put { GoesOn self.now bytes.now count result registers.old.items registers.new.items }
    {
        // A call begins behind a pixel that wasn't cached, and others may be near: then four look-ups are often in vain.
        // And the load of a pixel takes the byte behind it, which the last one doesn't have.
        if count == 0 || 3 * end == bytes.len() {
            return self.put_each(bytes, count, end, registers);
        }
        let next = self.put_fours(bytes, count, end, registers);
        self.put_each(bytes, next, end, registers)
    }

    /// The same, but handles a whole group at once if it repeats the pixel before it.
    fn put_group(&self, bytes: &[u8], count: usize, end: usize, registers: &mut Vec<u8>) -> usize
        requires ordered { count ≤ end }
        requires within { 3 * end ≤ length bytes.now }
        requires filled { count ≤ vec_len registers.old }
        requires room { vec_len registers.old + end ≤ vec_capacity registers.old + count }
        ensures from { count ≤ result }
        ensures most { result ≤ end }
        ensures len { vec_len registers.new + count ≡ vec_len registers.old + result }
        ensures capacity { vec_capacity registers.old ≤ vec_capacity registers.new }
        ensures put { GoesOn self.now bytes.now count result registers.old.items registers.new.items }
    {
        if count > 0 && end - count == GROUP && is_repeated(bytes, count) {
            repeat_last(registers);
            return end;
        }
        self.put_most(bytes, count, end, registers)
    }

    /// Adds the registers of at most `most` pixels at the beginning of the bytes, and stops at the first one that isn't
    /// cached. Returns how many it added.
    pub(crate) fn put_all(&self, bytes: &[u8], most: usize, registers: &mut Vec<u8>) -> usize
        requires within { 3 * most ≤ length bytes.now }
        requires room { vec_len registers.old + most ≤ vec_capacity registers.old }
        ensures most { result ≤ most }
        ensures len { vec_len registers.new ≡ vec_len registers.old + result }
        ensures capacity { vec_capacity registers.old ≤ vec_capacity registers.new }
        ensures put { (maxval : ℕ) (palette : List (Option Parts)) → Knows self.now maxval palette →
            PutsHits maxval palette (take (3 * result) bytes.now) registers.old.items registers.new.items }
    {
        let mut count = 0;
        while count < most {
            let end = most.min(count + GROUP);
            let next = self.put_group(bytes, count, end, registers);
            if next < end {
                return next;
            }
            count = next;
        }
        count
    }
}
