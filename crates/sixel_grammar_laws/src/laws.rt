//! Laws about the definitions. Each function's contract is the law.

ghost use Rattle.std.specs.Prelude.{◌≡◌, ℕ, List, ◌++◌, ◌<◌, ◌≤◌, ◌⊎◌, length};
ghost use Rattle.std.specs.List.{AllByRecursion};
ghost use Rattle.sixel_grammar.specs.declared.command.Event.{Event as AnEvent};
ghost use Rattle.sixel_grammar.specs.declared.command.Placed.{Placed as PlacedEvent};
ghost use Rattle.sixel_grammar.specs.declared.fault.Fault.{Fault as AFault};
ghost use Rattle.sixel_grammar.specs.declared.reader.Reader.{Reader as AReader};
ghost use Rattle.sixel_grammar.specs.Document.{AreWhole, Document, IsDocument, Parses, Piece, events_of, most_bytes};
ghost use Rattle.sixel_grammar.specs.Faults.{ArePrefix, IsFaultOf};
ghost use Rattle.sixel_grammar.specs.FixedText.{CanWrite, CanWriteAll, fixed_places, fixed_text};
ghost use Rattle.sixel_grammar.specs.Lengths.{most_length};
ghost use Rattle.sixel_grammar.specs.Prefixes.{CompleteIn, IsViable};
ghost use Rattle.sixel_grammar.specs.Spelling.{IsEvent, IsSpellable, Spells, fixed_spelling};
ghost use Rattle.sixel_grammar.specs.Standing.{StandsAfter};

/// Bytes are a document of at most one list of events.
pub fn one_document()
    ensures { (bytes : List ℕ) (first second : List PlacedEvent) → Document first bytes → Document second bytes →
        first ≡ second }
{}

/// Bytes are a document, or they have a fault.
pub fn documents_or_faults()
    ensures { (bytes : List ℕ) → IsDocument bytes ⊎ ((fault : AFault) × IsFaultOf bytes fault) }
{}

/// The events of a document are a start, commands and a finish.
pub fn documents_are_whole()
    ensures { (events : List PlacedEvent) (bytes : List ℕ) → Document events bytes → AreWhole (events_of events) }
{}

/// The events complete in a viable list are none, a start and commands, or those of a whole document.
pub fn complete_events_come_first()
    ensures { (events : List PlacedEvent) (bytes : List ℕ) → CompleteIn events bytes → ArePrefix (events_of events) }
{}

/// Each prefix of a document is viable. The length limit doesn't matter here.
pub fn prefixes_of_documents_are_viable()
    ensures { (prefix rest : List ℕ) (pieces : List Piece) → Parses pieces (prefix ++ rest) → IsViable prefix }
{}

/// Each prefix of a viable list is viable.
pub fn prefixes_are_viable()
    ensures { (prefix rest : List ℕ) → IsViable (prefix ++ rest) → IsViable prefix }
{}

/// The events complete in a viable list don't depend on the tail that makes it a document.
pub fn one_list_is_complete()
    ensures { (prefix : List ℕ) (first second : List PlacedEvent) → CompleteIn first prefix → CompleteIn second prefix →
        first ≡ second }
{}

/// The events complete in a viable list are the first ones of those complete in a longer one.
pub fn complete_events_stay()
    ensures { (prefix rest : List ℕ) (first second : List PlacedEvent) →
        CompleteIn first prefix → CompleteIn second (prefix ++ rest) →
        ((more : List PlacedEvent) × (second ≡ first ++ more)) }
{}

/// The events of a document are those that are complete in all of its bytes.
pub fn documents_are_complete()
    ensures { (events : List PlacedEvent) (bytes : List ℕ) → Document events bytes → CompleteIn events bytes }
{}

/// The events that a reader has returned are those complete in the bytes that it has read.
pub fn what_a_reader_read()
    ensures { (reader : AReader) (events : List PlacedEvent) (bytes : List ℕ) → StandsAfter reader events bytes →
        CompleteIn events bytes }
{}

/// The events complete in a list of bytes can be written: each is spellable, with its numbers in range.
pub fn complete_events_can_be_written()
    ensures { (events : List PlacedEvent) (bytes : List ℕ) → CompleteIn events bytes → CanWriteAll events }
{}

/// The fixed spelling of an event spells it.
pub fn fixed_spelling_spells()
    ensures { (event : AnEvent) → IsEvent event → IsSpellable event → Spells event (fixed_spelling event) }
{}

/// The fixed spelling of an event is no longer than its bound.
pub fn fixed_spelling_is_short()
    ensures { (event : AnEvent) → IsEvent event → length (fixed_spelling event) ≤ most_length event }
{}

/// The fixed spellings of a start, commands and a finish, joined, are a document of exactly these events, if they keep
/// to the length limit.
pub fn fixed_spellings_join()
    ensures { (events : List AnEvent) → AllByRecursion CanWrite events → AreWhole events →
        length (fixed_text events) ≤ most_bytes → Document (fixed_places 0 events) (fixed_text events) }
{}

/// A fault at a byte stays the fault, whatever follows that byte.
pub fn faults_stay()
    ensures { (bytes more : List ℕ) (fault : AFault) → IsFaultOf bytes fault → fault.place < length bytes →
        IsFaultOf (bytes ++ more) fault }
{}

/// Bytes with a fault aren't a document.
pub fn faults_are_no_documents()
    ensures { (bytes : List ℕ) (fault : AFault) → IsFaultOf bytes fault → IsDocument bytes → ⊥ }
{}

/// Bytes have at most one fault.
pub fn one_fault()
    ensures { (bytes : List ℕ) (first second : AFault) → IsFaultOf bytes first → IsFaultOf bytes second →
        first ≡ second }
{}
