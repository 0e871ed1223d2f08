//! Finds the strings of a stream, and checks each.

ghost use Rattle.std.specs.Prelude.{◌≡◌, ◌+◌, ◌<◌, ◌≤◌, ◌^◌, ◌++◌, ◌∷◌, [], ℕ, List, IfOk, OnErr, OnOk, length, take};
ghost use Rattle.std.specs.Prelude.{◌-◌, false, true, Some};
ghost use Rattle.std.specs.Option.{option_to_list};
ghost use Rattle.sixel_judge.specs.Growth.{MayGrowIn};
ghost use Rattle.sixel_model.specs.Profiles.{count_of};
ghost use Rattle.sixel_scan.specs.declared.opening.Opening.{Opening as Held};
ghost use Rattle.sixel_scan.specs.Openings.{Follows, is_introduced, is_longer};
ghost use Rattle.sixel_scan.specs.Strings.{StringAt};
ghost use Rattle.sixel_scan.specs.Answers.{IsReported};
ghost use Rattle.sixel_scan.specs.Wrapping.{AreMarked};

use crate::answer::Scanned;
use crate::ending::{ends_after, string_bytes_in};
use crate::opening::{EIGHT_BIT_INTRODUCER, ESCAPE, Opening, text_bytes_in};
use crate::string_check::{StringCheck, told};
use sixel_model::Profile;
use std::alloc::{AllocError, Global};

/// The byte that ends a string after ESC.
const BACKSLASH: u8 = 0x5c;

/// Where a scan is.
#[derive(Clone, Copy, Debug)]
pub(crate) enum Stage {
    /// Between strings.
    Text(Opening),
    /// In a string, after its `q`.
    Inside,
    /// In a string, after an ESC that its check hasn't read: the next byte shows whether the string has it.
    Escaped,
}

/// Finds the strings of a stream, and checks each as its bytes come. It keeps no bytes.
#[derive(Drop)]
pub(crate) struct Scanner {
    alloc: Global,
    profile: Profile,
    /// Whether 8-bit controls count.
    eight: bool,
    /// How many bytes were read.
    read: u64,
    /// The offset of the first byte that is held: of what may become an opening, or of the open string.
    opened: u64,
    /// Whether a string that begins there stands in the pass-through of tmux or GNU Screen.
    wrapped: bool,
    stage: Stage,
    /// The check of the bytes held, from an introducer on.
    check: StringCheck,
}

impl Scanner {
    ghost use Rattle.sixel_scan.specs.Checking.{HasRead};
    ghost use Rattle.sixel_scan.specs.Marking.{Knows, KnowsAt, Marks};
    ghost use Rattle.sixel_scan.specs.Prefixes.{AreBeforeGrowth};
    ghost use Rattle.sixel_scan.specs.Standing.{AdvancesFrom, Holds, ReadsNext, Reports, ReportsAll, Stands};

    /// A scan that has read nothing. It allocates nothing.
    pub(crate) fn new(alloc: Global, profile: Profile, eight: bool) -> Scanner
        ensures stands { Stands result [] [] }
        ensures knows { Knows result [] }
        ensures profile { result.profile ≡ profile }
        ensures eight { result.eight ≡ eight }
    {
        Scanner {
            alloc,
            profile,
            eight,
            read: 0,
            opened: 0,
            wrapped: false,
            stage: Stage::Text(Opening::Nothing),
            check: StringCheck::new(alloc, profile),
        }
    }

    /// Begins the check of what may become a string, and reads its first byte.
    fn restart(&mut self, byte: u8) -> Result<(), AllocError>
        ensures check { OnOk result (HasRead (count_of self.old.profile) self.new.check (byte ∷ [])) }
        ensures memory { OnErr result (MayGrowIn (count_of self.old.profile) (byte ∷ [])) }
        ensures rest { self.new ≡ record self.old { check = self.new.check } }
    {
        self.check = StringCheck::new(self.alloc, self.profile);
        self.check.feed(byte)
    }

    /// Begins the check with ESC P and this byte.
    fn restart_after_letter(&mut self, byte: u8) -> Result<(), AllocError>
        ensures check { OnOk result (HasRead (count_of self.old.profile) self.new.check (27 ∷ 80 ∷ byte ∷ [])) }
        ensures memory { OnErr result (MayGrowIn (count_of self.old.profile) (27 ∷ 80 ∷ byte ∷ [])) }
        ensures rest { self.new ≡ record self.old { check = self.new.check } }
    {
        self.restart(ESCAPE)?;
        self.check.feed(b'P')?;
        self.check.feed(byte)
    }

    /// Begins the check with the 8-bit introducer and this byte.
    fn restart_after_control(&mut self, byte: u8) -> Result<(), AllocError>
        ensures check { OnOk result (HasRead (count_of self.old.profile) self.new.check (144 ∷ byte ∷ [])) }
        ensures memory { OnErr result (MayGrowIn (count_of self.old.profile) (144 ∷ byte ∷ [])) }
        ensures rest { self.new ≡ record self.old { check = self.new.check } }
    {
        self.restart(EIGHT_BIT_INTRODUCER)?;
        self.check.feed(byte)
    }

    /// Has the check read a byte after an introducer, and what it hasn't read of the bytes before.
    fn check_opening(&mut self, opening: Opening, byte: u8) -> Result<(), AllocError>
        requires introduced { is_introduced opening ≡ true }
        requires held { (offset : ℕ) × (held : List ℕ)
            × Holds self.old.eight (count_of self.old.profile) self.old.opened self.old.check (Stage.Text opening)
            offset held }
        ensures check { OnOk result ((offset : ℕ) (held : List ℕ)
            → Holds self.old.eight (count_of self.old.profile) self.old.opened self.old.check (Stage.Text opening)
            offset held → HasRead (count_of self.old.profile) self.new.check (held ++ byte ∷ [])) }
        ensures memory { OnErr result ((offset : ℕ) (held : List ℕ)
            → Holds self.old.eight (count_of self.old.profile) self.old.opened self.old.check (Stage.Text opening)
            offset held → MayGrowIn (count_of self.old.profile) (held ++ byte ∷ [])) }
        ensures rest { self.new ≡ record self.old { check = self.new.check } }
    {
        match opening {
            Opening::Letter => self.restart_after_letter(byte),
            Opening::Control => self.restart_after_control(byte),
            _ => self.check.feed(byte),
        }
    }

    /// Goes on between strings, where one byte more than `before` has been read, and with it `next` is held, without
    /// digits or `;`.
    fn hold(&mut self, before: Opening, next: Opening)
        requires room { self.old.read < 2 ^ 64 - 1 }
        requires short { is_longer (Some next) ≡ false }
        ensures stands { (opening : Held) (byte : ℕ) (told : List StringAt) (bytes : List ℕ)
            → AdvancesFrom self.old.eight opening next byte → ReadsNext self.old (Stage.Text opening) byte told bytes
            → Stands self.new told bytes }
        ensures knows { (byte : ℕ) (bytes : List ℕ) → Follows before byte (Some next)
            → KnowsAt self.old (Stage.Text before) bytes → Knows self.new (bytes ++ byte ∷ []) }
        ensures profile { self.new.profile ≡ self.old.profile }
        ensures eight { self.new.eight ≡ self.old.eight }
    {
        match next {
            Opening::Escape | Opening::Control => {
                self.opened = self.read;
                self.wrapped = before.wraps();
                self.stage = Stage::Text(next);
                self.read += 1;
            }
            _ => {
                self.stage = Stage::Text(next);
                self.read += 1;
            }
        }
    }

    /// Reads a byte between strings.
    fn read_text(&mut self, opening: Opening, byte: u8) -> Result<(), AllocError>
        requires stands { (told : List StringAt) × (bytes : List ℕ)
            × ReadsNext self.old (Stage.Text opening) byte told bytes }
        requires room { self.old.read < 2 ^ 64 - 1 }
        ensures read { OnOk result ((told : List StringAt) (bytes : List ℕ)
            → ReadsNext self.old (Stage.Text opening) byte told bytes → Stands self.new told bytes) }
        ensures knows { OnOk result ((bytes : List ℕ) → KnowsAt self.old (Stage.Text opening) bytes
            → Knows self.new (bytes ++ byte ∷ [])) }
        ensures memory { OnErr result ((told : List StringAt) (bytes : List ℕ)
            → ReadsNext self.old (Stage.Text opening) byte told bytes
            → AreBeforeGrowth self.old.eight (count_of self.old.profile) told bytes) }
        ensures profile { self.new.profile ≡ self.old.profile }
        ensures eight { self.new.eight ≡ self.old.eight }
    {
        match opening.next(byte, self.eight) {
            None => {
                self.check_opening(opening, byte)?;
                self.stage = Stage::Inside;
                self.read += 1;
                Ok(())
            }
            Some(Opening::Introduced) => {
                self.check_opening(opening, byte)?;
                self.stage = Stage::Text(Opening::Introduced);
                self.read += 1;
                Ok(())
            }
            Some(next) => {
                self.hold(opening, next);
                Ok(())
            }
        }
    }

    /// Ends the string that is open, and reports it.
    fn report(&mut self) -> Scanned
        requires { (bytes : List ℕ) × HasRead (count_of self.old.profile) self.old.check bytes
            × (self.old.opened + length bytes < 2 ^ 64) }
        ensures reported { (bytes : List ℕ) → HasRead (count_of self.old.profile) self.old.check bytes
            → IsReported (count_of self.old.profile) (record { place = self.old.opened; bytes = bytes }) result }
        ensures place { result.place ≡ self.old.opened }
        ensures wrapped { result.wrapped ≡ self.old.wrapped }
        ensures rest { self.new ≡ record self.old {
          check = self.new.check;
          stage = Stage.Text Opening.Nothing;
        } }
    {
        self.stage = Stage::Text(Opening::Nothing);
        let fresh = StringCheck::new(self.alloc, self.profile);
        let checked = std::mem::replace(&mut self.check, fresh).finish();
        Scanned {
            place: self.opened,
            answer: told(self.opened, checked),
            wrapped: self.wrapped,
        }
    }

    /// Reads the byte after an ESC between strings.
    fn read_after_escape(&mut self, byte: u8)
        requires { self.old.read < 2 ^ 64 - 1 }
        ensures stands { (told : List StringAt) (bytes : List ℕ)
            → ReadsNext self.old (Stage.Text Opening.Escape) byte told bytes → Stands self.new told bytes }
        ensures knows { (bytes : List ℕ) → KnowsAt self.old (Stage.Text Opening.Escape) bytes
            → Knows self.new (bytes ++ byte ∷ []) }
        ensures profile { self.new.profile ≡ self.old.profile }
        ensures eight { self.new.eight ≡ self.old.eight }
    {
        match Opening::Escape.next(byte, self.eight) {
            Some(next) => self.hold(Opening::Escape, next),
            None => {}
        }
    }

    /// Reads a byte of a string, after its `q`.
    fn read_inside(&mut self, byte: u8) -> Result<Option<Scanned>, AllocError>
        requires stands { (told : List StringAt) × (bytes : List ℕ)
            × ReadsNext self.old Stage.Inside byte told bytes }
        requires stage { self.old.stage ≡ Stage.Inside }
        requires room { self.old.read < 2 ^ 64 - 1 }
        ensures read { IfOk result (λ scanned. (told : List StringAt) (bytes : List ℕ)
            → ReadsNext self.old Stage.Inside byte told bytes
            → Reports self.new told bytes (option_to_list scanned)) }
        ensures marks { IfOk result (λ scanned. (bytes : List ℕ) → KnowsAt self.old Stage.Inside bytes
            → Marks self.new (bytes ++ byte ∷ []) (option_to_list scanned)) }
        ensures memory { OnErr result ((told : List StringAt) (bytes : List ℕ)
            → ReadsNext self.old Stage.Inside byte told bytes
            → AreBeforeGrowth self.old.eight (count_of self.old.profile) told bytes) }
        ensures profile { self.new.profile ≡ self.old.profile }
        ensures eight { self.new.eight ≡ self.old.eight }
    {
        if byte == ESCAPE {
            self.stage = Stage::Escaped;
            self.read += 1;
            return Ok(None);
        }
        self.check.feed(byte)?;
        self.read += 1;
        if ends_after(byte, self.eight) {
            return Ok(Some(self.report()));
        }
        Ok(None)
    }

    /// Reads the byte after an ESC in a string.
    fn read_escaped(&mut self, byte: u8) -> Result<Option<Scanned>, AllocError>
        requires stands { (told : List StringAt) × (bytes : List ℕ)
            × ReadsNext self.old Stage.Escaped byte told bytes }
        requires room { self.old.read < 2 ^ 64 - 1 }
        ensures read { IfOk result (λ scanned. (told : List StringAt) (bytes : List ℕ)
            → ReadsNext self.old Stage.Escaped byte told bytes
            → Reports self.new told bytes (option_to_list scanned)) }
        ensures marks { IfOk result (λ scanned. (bytes : List ℕ) → KnowsAt self.old Stage.Escaped bytes
            → Marks self.new (bytes ++ byte ∷ []) (option_to_list scanned)) }
        ensures memory { OnErr result ((told : List StringAt) (bytes : List ℕ)
            → ReadsNext self.old Stage.Escaped byte told bytes
            → AreBeforeGrowth self.old.eight (count_of self.old.profile) told bytes) }
        ensures profile { self.new.profile ≡ self.old.profile }
        ensures eight { self.new.eight ≡ self.old.eight }
    {
        if byte == BACKSLASH {
            self.check.feed(ESCAPE)?;
            self.check.feed(byte)?;
            self.read += 1;
            return Ok(Some(self.report()));
        }
        let scanned = self.report();
        self.opened = self.read - 1;
        self.wrapped = false;
        self.read_after_escape(byte);
        Ok(Some(scanned))
    }

    /// Reads the next byte, and reports the string that has ended, if one has.
    pub(crate) fn read_byte(&mut self, byte: u8) -> Result<Option<Scanned>, AllocError>
        requires stands { (told : List StringAt) × (bytes : List ℕ) × Stands self.old told bytes }
        requires room { self.old.read < 2 ^ 64 - 1 }
        ensures read { IfOk result (λ scanned. (told : List StringAt) (bytes : List ℕ) → Stands self.old told bytes
            → Reports self.new told (bytes ++ byte ∷ []) (option_to_list scanned)) }
        ensures marks { IfOk result (λ scanned. (bytes : List ℕ) → Knows self.old bytes
            → Marks self.new (bytes ++ byte ∷ []) (option_to_list scanned)) }
        ensures memory { OnErr result ((told : List StringAt) (bytes : List ℕ) → Stands self.old told bytes
            → AreBeforeGrowth self.old.eight (count_of self.old.profile) told (bytes ++ byte ∷ [])) }
        ensures profile { self.new.profile ≡ self.old.profile }
        ensures eight { self.new.eight ≡ self.old.eight }
    {
        match self.stage {
            Stage::Text(opening) => {
                self.read_text(opening, byte)?;
                Ok(None)
            }
            Stage::Inside => self.read_inside(byte),
            Stage::Escaped => self.read_escaped(byte),
        }
    }

    /// How many more bytes a stream may have.
    pub(crate) fn room(&self) -> u64
        ensures { result + self.now.read ≡ 2 ^ 64 - 1 }
    {
        u64::MAX - self.read
    }

    /// Ends the stream: reports the string that is open, if there is one.
    pub(crate) fn finish(&mut self) -> Result<Option<Scanned>, AllocError>
        requires stands { (told : List StringAt) × (bytes : List ℕ) × Stands self.old told bytes }
        requires room { self.old.read < 2 ^ 64 }
        ensures all { IfOk result (λ scanned. (told : List StringAt) (bytes : List ℕ) → Stands self.old told bytes
            → ReportsAll self.old told bytes (option_to_list scanned)) }
        ensures marked { IfOk result (λ scanned. (bytes : List ℕ) → Knows self.old bytes
            → AreMarked bytes (option_to_list scanned)) }
        ensures memory { OnErr result ((told : List StringAt) (bytes : List ℕ) → Stands self.old told bytes
            → AreBeforeGrowth self.old.eight (count_of self.old.profile) told bytes) }
    {
        match self.stage {
            Stage::Text(_) => Ok(None),
            Stage::Inside => Ok(Some(self.report())),
            Stage::Escaped => {
                self.check.feed(ESCAPE)?;
                Ok(Some(self.report()))
            }
        }
    }

    /// Passes the bytes that the piece begins with and in which no opening begins, if nothing is held. Returns how many.
    fn pass_text(&mut self, piece: &[u8]) -> usize
        requires { self.old.read + length piece.now < 2 ^ 64 }
        ensures within { result ≤ length piece.now }
        ensures stands { (told : List StringAt) (bytes : List ℕ) → Stands self.old told bytes
            → Stands self.new told (bytes ++ take result piece.now) }
        ensures knows { (bytes : List ℕ) → Knows self.old bytes → Knows self.new (bytes ++ take result piece.now) }
        ensures read { self.new.read ≡ self.old.read + result }
        ensures profile { self.new.profile ≡ self.old.profile }
        ensures eight { self.new.eight ≡ self.old.eight }
    {
        match self.stage {
            Stage::Text(opening) => match opening {
                Opening::Nothing => {
                    let count = text_bytes_in(piece, self.eight);
                    self.read += count as u64;
                    count
                }
                _ => 0,
            },
            _ => 0,
        }
    }

    /// Reads the bytes of a string that the piece begins with, up to an ESC or a byte that ends the string. Returns how
    /// many.
    fn read_string(&mut self, piece: &[u8]) -> Result<usize, AllocError>
        requires stands { (told : List StringAt) × (bytes : List ℕ) × Stands self.old told bytes }
        requires stage { self.old.stage ≡ Stage.Inside }
        requires room { self.old.read + length piece.now < 2 ^ 64 }
        ensures within { IfOk result (λ count. count ≤ length piece.now) }
        ensures stands { IfOk result (λ count. (told : List StringAt) (bytes : List ℕ) → Stands self.old told bytes
            → Stands self.new told (bytes ++ take count piece.now)) }
        ensures knows { IfOk result (λ count. (bytes : List ℕ) → Knows self.old bytes
            → Knows self.new (bytes ++ take count piece.now)) }
        ensures read { IfOk result (λ count. self.new.read ≡ self.old.read + count) }
        ensures memory { OnErr result ((told : List StringAt) (bytes : List ℕ) → Stands self.old told bytes
            → (n : ℕ) × AreBeforeGrowth self.old.eight (count_of self.old.profile) told (bytes ++ take n piece.now)) }
        ensures profile { self.new.profile ≡ self.old.profile }
        ensures eight { self.new.eight ≡ self.old.eight }
    {
        let count = string_bytes_in(piece, self.eight);
        self.check.read(&piece[..count])?;
        self.read += count as u64;
        Ok(count)
    }

    /// Reads the bytes that the piece begins with and at which no opening begins and no string ends. Returns how many.
    fn read_stretch(&mut self, piece: &[u8]) -> Result<usize, AllocError>
        requires stands { (told : List StringAt) × (bytes : List ℕ) × Stands self.old told bytes }
        requires room { self.old.read + length piece.now < 2 ^ 64 }
        ensures within { IfOk result (λ count. count ≤ length piece.now) }
        ensures stands { IfOk result (λ count. (told : List StringAt) (bytes : List ℕ) → Stands self.old told bytes
            → Stands self.new told (bytes ++ take count piece.now)) }
        ensures knows { IfOk result (λ count. (bytes : List ℕ) → Knows self.old bytes
            → Knows self.new (bytes ++ take count piece.now)) }
        ensures read { IfOk result (λ count. self.new.read ≡ self.old.read + count) }
        ensures memory { OnErr result ((told : List StringAt) (bytes : List ℕ) → Stands self.old told bytes
            → (n : ℕ) × AreBeforeGrowth self.old.eight (count_of self.old.profile) told (bytes ++ take n piece.now)) }
        ensures profile { self.new.profile ≡ self.old.profile }
        ensures eight { self.new.eight ≡ self.old.eight }
    {
        match self.stage {
            Stage::Inside => self.read_string(piece),
            _ => Ok(self.pass_text(piece)),
        }
    }

    /// Reads a stretch, or else one byte.
    pub(crate) fn read_some(&mut self, piece: &[u8]) -> Result<Step, AllocError>
        requires some { 0 < length piece.now }
        requires stands { (told : List StringAt) × (bytes : List ℕ) × Stands self.old told bytes }
        requires room { self.old.read + length piece.now < 2 ^ 64 }
        ensures some { IfOk result (λ step. 0 < step.count) }
        ensures within { IfOk result (λ step. step.count ≤ length piece.now) }
        ensures reports { IfOk result (λ step. (told : List StringAt) (bytes : List ℕ) → Stands self.old told bytes
            → Reports self.new told (bytes ++ take step.count piece.now) (option_to_list step.scanned)) }
        ensures marks { IfOk result (λ step. (bytes : List ℕ) → Knows self.old bytes
            → Marks self.new (bytes ++ take step.count piece.now) (option_to_list step.scanned)) }
        ensures memory { OnErr result ((told : List StringAt) (bytes : List ℕ) → Stands self.old told bytes
            → (n : ℕ) × AreBeforeGrowth self.old.eight (count_of self.old.profile) told (bytes ++ take n piece.now)) }
        ensures profile { self.new.profile ≡ self.old.profile }
        ensures eight { self.new.eight ≡ self.old.eight }
    {
        let count = self.read_stretch(piece)?;
        if count > 0 {
            return Ok(Step {
                count,
                scanned: None,
            });
        }
        let scanned = self.read_byte(piece[0])?;
        Ok(Step { count: 1, scanned })
    }
}

/// How many bytes a scan read, and the string that has ended with them, if one has.
#[derive(Drop)]
pub(crate) struct Step {
    pub(crate) count: usize,
    pub(crate) scanned: Option<Scanned>,
}
