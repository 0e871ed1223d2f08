//! The samples of a picture file, in pieces of any size.

ghost use Rattle.std.specs.Prelude.{◌≡◌, ◌≤◌, ◌<◌, ◌+◌, ◌*◌, ◌^◌, ◌∷◌, [], length, ◌&&◌, List, IsTrue, IfErr, IfNone};
ghost use Rattle.std.specs.Prelude.{IfOk, IfSome, Ok, OnOk, vec_capacity, vec_len};
ghost use Rattle.sixel_model.specs.Pictures.{is_side};
ghost use Rattle.sixel_ppm.specs.PpmPartialPixel.{partial_samples, is_good};
ghost use Rattle.sixel_ppm.specs.PpmColours.{IsUnusedFrom};
ghost use Rattle.sixel_ppm.specs.PpmPixelCache.{Knows};
ghost use Rattle.sixel_ppm.specs.PpmReading.{colour_of, most_header, percent};
ghost use Rattle.sixel_model.specs.Profiles.{count_of};

use crate::ppm::colours::Colours;
use crate::ppm::header::Header;
use crate::ppm::numbering::number_by;
use crate::ppm::pixel_cache::PixelCache;
use crate::ppm::{PpmFault, PpmReason};
use sixel_model::{Colour, Picture, Profile};
use std::alloc::{AllocError, Global};

/// The samples of a pixel, and its register.
#[derive(Clone, Copy, Debug, PartialEq, Eq)]
pub(crate) struct Pixel {
    pub(crate) red: u8,
    pub(crate) green: u8,
    pub(crate) blue: u8,
    pub(crate) register: u8,
}

/// The samples of an incomplete pixel.
#[derive(Clone, Copy, Debug, PartialEq, Eq)]
pub(crate) enum PartialPixel {
    Nothing,
    Red(u8),
    RedGreen(u8, u8),
}

/// The pixels whose samples have been read.
#[derive(Debug, Drop)]
pub(crate) struct Samples {
    pub(crate) width: u32,
    pub(crate) height: u32,
    pub(crate) maxval: u8,
    /// How many pixels aren't complete yet.
    pub(crate) left: u32,
    /// The offset of the first sample of the next pixel.
    pub(crate) place: u64,
    pub(crate) partial: PartialPixel,
    /// The last pixel looked up in the palette. One that repeats it needs no new lookup.
    pub(crate) last: Option<Pixel>,
    /// Earlier pixels. One that repeats any of them needs no new lookup, either.
    pub(crate) cache: PixelCache,
    /// The colours of earlier pixels, by their percentages. Other samples of the same colour need no search.
    pub(crate) seen: PixelCache,
    pub(crate) colours: Colours,
    pub(crate) registers: Vec<u8>,
    ghost scaled: { 0 < maxval },
    ghost bounded: { place + 3 * left ≤ 2 ^ 63 },
    ghost partial_is_good: { IsTrue (is_good partial maxval left) },
    ghost sides: { IsTrue (is_side width && is_side height) },
    ghost unused: { IsUnusedFrom colours.palette colours.count },
    ghost knows: { Knows cache maxval colours.palette },
    ghost knows_seen: { Knows seen 100 colours.palette },
    ghost room: { vec_len registers + left ≤ vec_capacity registers },
}

/// The percentage of a sample, rounded to the nearest whole number.
fn percent(sample: u8, maxval: u8) -> u8
    requires scaled { 0 < maxval }
    requires good { sample ≤ maxval }
    ensures value { result ≡ percent maxval sample }
    ensures in_range { result ≤ 100 }
{
    let maxval = maxval as u32;
    let share = (200 * sample as u32 + maxval) / (2 * maxval);
    share as u8
}

/// The colour of three samples, which must be at most the maximum.
fn colour_of(maxval: u8, red: u8, green: u8, blue: u8) -> Colour
    requires scaled { 0 < maxval }
    requires red { red ≤ maxval }
    requires green { green ≤ maxval }
    requires blue { blue ≤ maxval }
    ensures { result ≡ colour_of maxval red green blue }
{
    Colour::of_percentages(
        percent(red, maxval),
        percent(green, maxval),
        percent(blue, maxval),
    )
}

fn fault(reason: PpmReason, place: u64) -> PpmFault
    ensures { result ≡ PpmFault.Format reason place }
{
    PpmFault::Format { reason, place }
}

impl Samples {
    ghost use Rattle.sixel_ppm.specs.PpmSamples.{Begins, Fails, FailsOn, IsLast, IsNextPartial, KeepsPixels, Leads};
    ghost use Rattle.sixel_ppm.specs.PpmSamples.{LeadsOn, HasRead, PutsPixel, PutsPixels, Refuses, Registers};
    ghost use Rattle.sixel_ppm.specs.PpmSamples.{TooMany, budget, samples_on, Holds};
    ghost use Rattle.sixel_model.specs.declared.colour.Parts.{Parts};

    /// No sample was read yet. Makes the only allocation of a reading.
    pub(crate) fn new(
        alloc: Global,
        profile: Profile,
        header: Header,
    ) -> Result<Samples, AllocError>
        requires sides { IsTrue (is_side header.width && is_side header.height) }
        requires scaled { 0 < header.maxval }
        requires place { header.place ≤ most_header }
        ensures { IfOk result (λ s. Begins (count_of profile) header s) }
    {
        let pixels = header.width * header.height;
        let registers = Vec::with_capacity(alloc, pixels as usize)?;
        Ok(Samples {
            width: header.width,
            height: header.height,
            maxval: header.maxval,
            left: pixels,
            place: header.place,
            partial: PartialPixel::Nothing,
            last: None,
            cache: PixelCache::new(),
            seen: PixelCache::new(),
            colours: Colours::new(profile),
            registers,
        })
    }

    /// The fault of the first of a pixel's samples that is above the maximum, if any.
    fn unfit(&self, red: u8, green: u8, blue: u8) -> Option<PpmFault>
        requires { 0 < self.now.left }
        ensures fit { IfNone result ((red ≤ self.now.maxval) × (green ≤ self.now.maxval) × (blue ≤ self.now.maxval)) }
        ensures unfit { IfSome result (λ fault. Fails self.now fault (red ∷ green ∷ blue ∷ [])) }
    {
        if red > self.maxval {
            Some(fault(PpmReason::Sample, self.place))
        } else if green > self.maxval {
            Some(fault(PpmReason::Sample, self.place + 1))
        } else if blue > self.maxval {
            Some(fault(PpmReason::Sample, self.place + 2))
        } else {
            None
        }
    }

    /// The register of the last pixel looked up, if this one repeats it.
    fn repeated(&self, red: u8, green: u8, blue: u8) -> Option<u8>
        ensures { IfSome result (IsLast self.now.last red green blue) }
    {
        match self.last {
            Some(last) if last.red == red && last.green == green && last.blue == blue => {
                Some(last.register)
            }
            _ => None,
        }
    }

    /// The register of a pixel by its colour, or `TooManyColours`. The samples must be at most the maximum.
    fn number(&mut self, red: u8, green: u8, blue: u8) -> Result<u8, PpmFault>
        requires red { red ≤ self.old.maxval }
        requires green { green ≤ self.old.maxval }
        requires blue { blue ≤ self.old.maxval }
        ensures registered { IfOk result (λ register. Registers self.old self.new red green blue register) }
        ensures failed { IfErr result (λ fault. TooMany self.old red green blue fault) }
        ensures kept { KeepsPixels self.old self.new }
    {
        let colour = colour_of(self.maxval, red, green, blue);
        match number_by(&mut self.colours, &mut self.seen, colour) {
            None => Err(fault(PpmReason::TooManyColours, self.place)),
            Some(register) => {
                self.cache.keep(red, green, blue, register);
                self.last = Some(Pixel {
                    red,
                    green,
                    blue,
                    register,
                });
                Ok(register)
            }
        }
    }

    /// The register of a pixel, or the fault of its samples or its colour.
    fn register_of(&mut self, red: u8, green: u8, blue: u8) -> Result<u8, PpmFault>
        requires { 0 < self.old.left }
        ensures registered { IfOk result (λ register. Registers self.old self.new red green blue register) }
        ensures failed { IfErr result (λ fault. Fails self.old fault (red ∷ green ∷ blue ∷ [])) }
        ensures kept { KeepsPixels self.old self.new }
    {
        if let Some(register) = self.repeated(red, green, blue) {
            return Ok(register);
        }
        if let Some(fault) = self.unfit(red, green, blue) {
            return Err(fault);
        }
        self.number(red, green, blue)
    }

    /// Adds a complete pixel, for which `new` has reserved room.
    fn put(&mut self, register: u8)
        requires some { 0 < self.old.left }
        requires whole { self.old.partial ≡ PartialPixel.Nothing }
        ensures { PutsPixel self.old self.new register }
    {
        self.registers.push_reserved(register);
        self.left -= 1;
        self.place += 3;
    }

    /// Reads the three samples of a pixel.
    fn pixel(&mut self, red: u8, green: u8, blue: u8) -> Result<(), PpmFault>
        requires { self.old.partial ≡ PartialPixel.Nothing }
        ensures read { OnOk result (Leads self.old self.new (red ∷ green ∷ blue ∷ [])) }
        ensures failed { IfErr result (λ fault. Fails self.old fault (red ∷ green ∷ blue ∷ [])) }
        ensures partial { OnOk result (self.new.partial ≡ PartialPixel.Nothing) }
        ensures fewer { OnOk result (self.new.left + 1 ≡ self.old.left) }
    {
        if self.left == 0 {
            return Err(fault(PpmReason::Trailing, self.place));
        }
        let register = self.register_of(red, green, blue)?;
        self.put(register);
        Ok(())
    }

    /// Holds back the first or the second sample of a pixel.
    fn hold(&mut self, sample: u8, place: u64, partial: PartialPixel) -> Result<(), PpmFault>
        requires good { IsTrue (is_good self.old.partial self.old.maxval self.old.left) }
        requires next { IsNextPartial self.old.partial sample partial }
        requires place { place ≡ self.old.place + length (partial_samples self.old.partial) }
        ensures read { OnOk result (LeadsOn self.old self.new (sample ∷ [])) }
        ensures failed { IfErr result (λ fault. FailsOn self.old fault (sample ∷ [])) }
        ensures fewer { OnOk result (budget self.new + 1 ≡ budget self.old) }
    {
        if self.left == 0 {
            return Err(fault(PpmReason::Trailing, self.place));
        }
        if sample > self.maxval {
            return Err(fault(PpmReason::Sample, place));
        }
        self.partial = partial;
        Ok(())
    }

    /// Reads one sample.
    fn sample(&mut self, sample: u8) -> Result<(), PpmFault>
        ensures read { OnOk result (LeadsOn self.old self.new (sample ∷ [])) }
        ensures failed { IfErr result (λ fault. FailsOn self.old fault (sample ∷ [])) }
        ensures fewer { OnOk result (budget self.new + 1 ≡ budget self.old) }
    {
        match self.partial {
            PartialPixel::Nothing => self.hold(sample, self.place, PartialPixel::Red(sample)),
            PartialPixel::Red(red) => self.hold(
                sample,
                self.place + 1,
                PartialPixel::RedGreen(red, sample),
            ),
            PartialPixel::RedGreen(red, green) => {
                self.partial = PartialPixel::Nothing;
                self.pixel(red, green, sample)
            }
        }
    }

    /// Reads a whole pixel at the beginning of the bytes if it can, otherwise one sample. Returns the remaining bytes.
    fn read_first<'a>(&mut self, bytes: &'a [u8]) -> Result<&'a [u8], PpmFault>
        requires { 0 < length bytes.now }
        ensures read { IfOk result (λ rest. HasRead self.old self.new bytes.now rest.now) }
        ensures shorter { IfOk result (λ rest. length rest.now < length bytes.now) }
        ensures failed { IfErr result (λ fault. FailsOn self.old fault bytes.now) }
    {
        match (self.partial, bytes) {
            (PartialPixel::Nothing, [red, green, blue, rest @ ..]) => {
                self.pixel(*red, *green, *blue)?;
                Ok(rest)
            }
            (_, [sample, rest @ ..]) => {
                self.sample(*sample)?;
                Ok(rest)
            }
            (_, []) => Ok(bytes),
        }
    }

    /// Adds at most `most` pixels at the beginning of the bytes, and stops at the first one that isn't cached. Returns
    /// how many it added.
    fn put_cached(&mut self, bytes: &[u8], most: usize) -> usize
        requires left { most ≤ self.old.left }
        requires within { 3 * most ≤ length bytes.now }
        requires whole { self.old.partial ≡ PartialPixel.Nothing }
        ensures most { result ≤ most }
        ensures put { PutsPixels self.old self.new bytes.now result }
    {
        let count = self.cache.put_all(bytes, most, &mut self.registers);
        self.left -= count as u32;
        self.place += 3 * count as u64;
        count
    }

    /// Reads the whole pixels at the beginning that are cached. Returns the remaining bytes.
    fn read_cached<'a>(&mut self, bytes: &'a [u8]) -> &'a [u8]
        ensures read { HasRead self.old self.new bytes.now result.now }
        ensures shorter { length result.now ≤ length bytes.now }
    {
        let PartialPixel::Nothing = self.partial else {
            return bytes;
        };
        let most = (bytes.len() / 3).min(self.left as usize);
        let count = self.put_cached(bytes, most);
        &bytes[3 * count..]
    }

    /// Reads a piece of the samples.
    pub(crate) fn feed(&mut self, piece: &[u8]) -> Result<(), PpmFault>
        ensures read { OnOk result (LeadsOn self.old self.new piece.now) }
        ensures failed { IfErr result (λ fault. FailsOn self.old fault piece.now) }
        ensures fewer { OnOk result (budget self.new + length piece.now ≤ budget self.old) }
    {
        let mut rest = piece;
        while !rest.is_empty() {
            rest = self.read_first(rest)?;
            rest = self.read_cached(rest);
        }
        Ok(())
    }

    /// The picture, or the fault `Short` if samples are missing.
    pub(crate) fn finish(self) -> Result<Picture, PpmFault>
        requires { (colours : List Parts) × Holds self colours }
        ensures whole { IfOk result (λ p. (colours : List Parts) → Holds self colours →
            samples_on self colours [] ≡ Ok p) }
        ensures failed { IfErr result (λ fault. (colours : List Parts) → Holds self colours →
            Refuses fault (samples_on self colours [])) }
    {
        let Samples {
            width,
            height,
            left,
            place,
            partial,
            colours,
            registers,
            ..
        } = self;
        if left > 0 {
            return Err(fault(PpmReason::Short, place + count(partial)));
        }
        Ok(Picture::of_parts(width, height, colours.palette, registers))
    }
}

/// How many samples are held back.
fn count(partial: PartialPixel) -> u64
    ensures count { result ≡ length (partial_samples partial) }
    ensures few { result ≤ 2 }
{
    match partial {
        PartialPixel::Nothing => 0,
        PartialPixel::Red(_) => 1,
        PartialPixel::RedGreen(_, _) => 2,
    }
}
