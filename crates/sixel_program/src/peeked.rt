//! Inputs whose first bytes can be looked at before they are read.

ghost use Rattle.std.specs.Prelude.{◌≡◌, ◌<◌, ◌≤◌, ◌+◌, ◌++◌, [], ℕ, IfOk, IfSome, List, drop, length, true};
ghost use Rattle.std.specs.Io.KnownBytes.{Consumes, Keeps, ReadConsumes};
ghost use Rattle.sixel_io.specs.Devices.{CountsFailure};
ghost use Rattle.sixel_messages.specs.Formats.{IsFormat};
ghost use Rattle.sixel_program.specs.Peeked.{after_prefix, failures_of_source, peeked_state};

use arrayvec::ArrayVec;
use sixel_io::{DeviceFault, Source};
use sixel_messages::{Format, PREFIX_LENGTH, format_of, is_undecided};

/// The first bytes of an input.
type Prefix = ArrayVec<u8, PREFIX_LENGTH>;

/// What an input gives after its prefix.
#[derive(Clone, Copy, Debug, PartialEq, Eq)]
enum After {
    /// What its source gives.
    Rest,
    /// A failure, which the source has had, and then what the source gives.
    Failure,
    /// The end, at which the source was.
    End,
}

/// An input and its first bytes, as far as they were looked at. They have been read from the source, and the input
/// gives them again before the rest; so it does with a failure and with the end, if a look met them. Who reads it
/// can't tell that it was looked at.
#[derive(Drop)]
pub struct Peeked<S: Source> {
    prefix: Prefix,
    /// How many bytes of the prefix the input has given again.
    given: usize,
    /// What follows the prefix.
    after: After,
    /// How many calls on the input failed.
    failures: u64,
    /// The source, which gives what follows the prefix.
    rest: S,
    /// The input's failures are those of its source, but for one that waits.
    ghost counted: { (S.state rest).failures ≡ failures_of_source after failures },
}

impl<S: Source> Peeked<S> {
    /// An input of which nothing has been read.
    pub fn new(source: S) -> Peeked<S>
        ensures { ⟦<Peeked<S> as Source>⟧.state result ≡ S.state source }
    {
        Peeked {
            prefix: ArrayVec::new(),
            given: 0,
            after: After::Rest,
            failures: source.failures(),
            rest: source,
        }
    }

    /// The format of the input, told by its first bytes. If some of it has been read already, it has none.
    pub fn format(&mut self) -> Option<Format>
        ensures told { Keeps (⟦<Peeked<S> as Source>⟧.state self.old).remaining
            (⟦<Peeked<S> as Source>⟧.state self.new).remaining }
        ensures failures { (⟦<Peeked<S> as Source>⟧.state self.new).failures
            ≡ (⟦<Peeked<S> as Source>⟧.state self.old).failures }
        ensures format { IsFormat (⟦<Peeked<S> as Source>⟧.state self.old).remaining result }
    {
        self.look();
        format_of(self.waiting())
    }

    /// Whether the input has no bytes. It reads once if nothing has been read yet, so it waits no longer than the task
    /// itself would.
    pub fn is_empty(&mut self) -> bool
        ensures told { Keeps (⟦<Peeked<S> as Source>⟧.state self.old).remaining
            (⟦<Peeked<S> as Source>⟧.state self.new).remaining }
        ensures failures { (⟦<Peeked<S> as Source>⟧.state self.new).failures
            ≡ (⟦<Peeked<S> as Source>⟧.state self.old).failures }
        ensures empty { result ≡ true → IfSome (⟦<Peeked<S> as Source>⟧.state self.old).remaining (λ bytes. bytes ≡ []) }
    {
        self.look_once();
        matches!(self.after, After::End) && self.waiting().is_empty()
    }

    /// Reads once, if nothing has been read yet.
    fn look_once(&mut self)
        ensures told { Keeps (⟦<Peeked<S> as Source>⟧.state self.old).remaining
            (⟦<Peeked<S> as Source>⟧.state self.new).remaining }
        ensures failures { self.new.failures ≡ self.old.failures }
    {
        match self.after {
            After::Rest if self.prefix.is_empty() => {
                let mut prefix = ArrayVec::new();
                self.after = read_more(&mut self.rest, &mut prefix);
                self.prefix = prefix;
                self.given = 0;
            }
            _ => {}
        }
    }

    /// Reads the first bytes, if nothing has been read yet.
    fn look(&mut self)
        ensures told { Keeps (⟦<Peeked<S> as Source>⟧.state self.old).remaining
            (⟦<Peeked<S> as Source>⟧.state self.new).remaining }
        ensures failures { self.new.failures ≡ self.old.failures }
    {
        match self.after {
            After::Rest if self.prefix.is_empty() => {
                let mut prefix = ArrayVec::new();
                self.after = first_bytes(&mut self.rest, &mut prefix);
                self.prefix = prefix;
                self.given = 0;
            }
            _ => {}
        }
    }

    /// What the input has yet to give of the prefix.
    fn waiting(&self) -> &[u8]
        ensures bytes { result.now ≡ drop self.now.given self.now.prefix.items }
        ensures bound { 0 < length result.now → self.now.given + length result.now ≤ 12 }
    {
        match self.prefix.as_slice().get(self.given..) {
            Some(waiting) => waiting,
            None => &[],
        }
    }

    /// Fills the piece with what follows the prefix.
    fn fill_after(&mut self, piece: &mut [u8]) -> Result<usize, DeviceFault>
        requires { 0 < length piece.old }
        ensures bound { IfOk result (λ n. n ≤ length piece.new) }
        ensures bytes { ReadConsumes (after_prefix self.old.after (S.state self.old.rest).remaining)
            (after_prefix self.new.after (S.state self.new.rest).remaining) result piece.new }
        ensures failures { CountsFailure result self.old.failures self.new.failures }
        ensures kept { (self.new.given ≡ self.old.given) × (self.new.prefix ≡ self.old.prefix) }
    {
        let filled = match self.after {
            After::Rest => self.rest.fill(piece),
            After::Failure => {
                self.after = After::Rest;
                Err(DeviceFault)
            }
            After::End => Ok(0),
        };
        if filled.is_err() {
            self.failures = self.failures.saturating_add(1);
        }
        filled
    }
}

impl<S: Source> Source for Peeked<S> {
    ghost state = { λ p. peeked_state (drop p.given p.prefix.items) p.after (S.state p.rest) p.failures };

    fn fill(&mut self, piece: &mut [u8]) -> Result<usize, DeviceFault> {
        let waiting = self.waiting();
        if waiting.is_empty() {
            return self.fill_after(piece);
        }
        let count = waiting.len().min(piece.len());
        piece[..count].copy_from_slice(&waiting[..count]);
        self.given += count;
        Ok(count)
    }

    fn failures(&self) -> u64 {
        self.failures
    }
}

/// Reads the first bytes of a source, until they tell its format or tell that it is unknown, or a read gives none or
/// fails. Returns what follows them.
fn first_bytes<S: Source>(source: &mut S, prefix: &mut Prefix) -> After
    requires { prefix.old.items ≡ [] }
    ensures read { Consumes (S.state source.old).remaining (after_prefix result (S.state source.new).remaining)
        prefix.new.items }
    ensures counted { (S.state source.new).failures ≡ failures_of_source result (S.state source.old).failures }
{
    for _ in 0..PREFIX_LENGTH {
        if !is_undecided(prefix.as_slice()) {
            break;
        }
        match read_more(source, prefix) {
            After::Rest => {}
            after => return after,
        }
    }
    After::Rest
}

/// Reads once, as much as there is room for, and appends it to `prefix`. Returns what follows it.
fn read_more<S: Source>(source: &mut S, prefix: &mut Prefix) -> After
    ensures read { (more : List ℕ)
        × Consumes (S.state source.old).remaining (after_prefix result (S.state source.new).remaining) more
        × (prefix.new.items ≡ prefix.old.items ++ more) }
    ensures counted { (S.state source.new).failures ≡ failures_of_source result (S.state source.old).failures }
{
    let mut piece = [0; PREFIX_LENGTH];
    let room = prefix.remaining_capacity();
    if room == 0 {
        return After::Rest;
    }
    match source.fill(&mut piece[..room]) {
        Ok(0) => After::End,
        Ok(count) => {
            let _ = prefix.try_extend_from_slice(&piece[..count]);
            After::Rest
        }
        Err(_) => After::Failure,
    }
}
