//! Laws about the definitions. Each function's contract is the law.

ghost use Rattle.std.specs.Prelude.{◌≡◌, ◌≢◌, ◌↔◌, ◌<◌, ◌≤◌, ◌∷◌, ◌++◌, [], ℕ, All, Bool, Contains, List, Err, Ok};
ghost use Rattle.std.specs.Prelude.{Some, Option, codes, false, filter, flat_map, map, not, true};
ghost use Rattle.std.specs.List.{concat};
ghost use Rattle.json.specs.Json.{document, object as json_object};
ghost use Rattle.json.specs.Lex.{tokens};
ghost use Rattle.sixel_io.specs.Devices.{Change, SinkState};
ghost use Rattle.sixel_grammar.specs.Faults.{IsFaultOf};
ghost use Rattle.sixel_grammar.specs.declared.fault.Fault.{Fault};
ghost use Rattle.sixel_ppm.specs.PpmReading.{at_fault, ppm_read};
ghost use Rattle.sixel_ppm.specs.declared.ppm.PpmReason.{PpmReason};
ghost use Rattle.sixel_report.specs.declared.fault.RunFault.{RunFault};
ghost use Rattle.sixel_report.specs.declared.fault.RunFault.TheVariants.{Grammar, Ppm, Write};
ghost use Rattle.sixel_report.specs.declared.task.Task.{Task};
ghost use Rattle.sixel_report.specs.declared.task.Task.TheVariants.{Scan};
ghost use Rattle.sixel_run.specs.LineTasks.{has_lines, scans};
ghost use Rattle.sixel_run.specs.Scanned.{Finds, scan_text};
ghost use Rattle.sixel_scan.specs.declared.answer.Scanned.{Scanned};
ghost use Rattle.sixel_model.specs.Profiles.{count_of};
ghost use Rattle.sixel_model.specs.declared.profile.Profile.{Profile};
ghost use Rattle.sixel_report.specs.declared.task.Status.{Status};
ghost use Rattle.sixel_report.specs.declared.exit.Exit.TheVariants.{Refused as RefusedExit};
ghost use Rattle.sixel_messages.specs.declared.unopened.Unopened.{Unopened};
ghost use Rattle.sixel_report.specs.Exits.{exit_code};
ghost use Rattle.sixel_messages.specs.Messages.{labelled};
ghost use Rattle.sixel_program.specs.Files.{FileEnd, IsFileEnd, exit_of_end, files_exit, files_text};
ghost use Rattle.sixel_messages.specs.Puts.{ArePut};
ghost use Rattle.sixel_messages.specs.Reports.{refusal_object};
ghost use Rattle.sixel_program_laws.specs.Laws.{IsSaid, FitsFault, FitsItem, HaveValues, members_of};
ghost use Rattle.sixel_report.specs.Lines.{is_portable_item};
ghost use Rattle.sixel_report.specs.declared.wanted_lines.Lines.{Lines};
ghost use Rattle.sixel_report.specs.declared.wanted_lines.Lines.TheVariants.{Json, Nothing, Plain};
ghost use Rattle.sixel_messages.specs.Json.{Member, fault_members, file_member, item_members, json_line, object};
ghost use Rattle.sixel_messages.specs.Json.{unread_members};
ghost use Rattle.sixel_messages.specs.Formats.{is_of_empty};
ghost use Rattle.sixel_printing.specs.Printing.{printed};
ghost use Rattle.sixel_report.specs.declared.item.Item.{Item};
ghost use Rattle.sixel_run.specs.Outputs.{Gives};
ghost use Rattle.sixel_report.specs.Texts.{IsLine, Text, item_line, items_text};

/// The output of a task with lines over several files is that of each, joined. Each line begins with the file's
/// name, if it was given, and without it they are the lines that the task writes over only this file's bytes. A file
/// that a check or a survey refuses has no line, or in JSON one object, and a grammar fault is the one that the task
/// finds in only this file's bytes. A scan that wasn't done has the lines of the strings that it found, and the status of
/// a refusal. A quiet check writes no lines, and one of only failures no line of a portable picture. The exit status is
/// the greatest: it is that of one of the files, and no file has a greater one. Texts that were put to a sink in turn are
/// appended to it joined, unless a call on the sink failed.
pub fn several_files_are_checked_one_by_one()
    ensures joined { (lines : Lines) (prefix rest : List FileEnd) →
        files_text lines (prefix ++ rest) ≡ files_text lines prefix ++ files_text lines rest }
    ensures named { (e : FileEnd) (name : Text) → e.label ≡ Some name →
        files_text (Plain false) (e ∷ [])
        ≡ flat_map (λ item. printed name ++ codes ": " ++ item_line item) e.items }
    ensures unnamed { (e : FileEnd) → e.label ≡ None → files_text (Plain false) (e ∷ []) ≡ items_text e.items }
    ensures failures { (e : FileEnd) → files_text (Plain true) (e ∷ [])
        ≡ flat_map (λ item. labelled e.label (item_line item)) (filter (λ item. not (is_portable_item item)) e.items) }
    ensures lines { (item : Item) → IsLine (item_line item) }
    ensures alone { (task : Task) (e : FileEnd) (bytes : List ℕ) (status : Status) → IsFileEnd task e →
        e.told ≡ Some bytes → e.answer ≡ Ok status → Gives task bytes (items_text e.items) (Ok status) }
    ensures refused { (task : Task) (only_failed : Bool) (e : FileEnd) (fault : RunFault) →
        IsFileEnd task e → scans task ≡ false → e.answer ≡ Err fault →
        (files_text (Plain only_failed) (e ∷ []) ≡ [])
        × (files_text (Json only_failed) (e ∷ []) ≡ refusal_object e.label e.unopened e.answer) }
    ensures quiet { (json : Bool) (ends : List FileEnd) → files_text (Nothing json) ends ≡ [] }
    ensures faulty { (task : Task) (e : FileEnd) (bytes : List ℕ) (fault : Fault) → has_lines task ≡ true →
        IsFileEnd task e → e.told ≡ Some bytes → e.answer ≡ Err (Grammar fault) →
        Gives task bytes [] (Err (Grammar fault)) }
    ensures unended { (profile : Profile) (eight : Bool) (e : FileEnd) (bytes : List ℕ) (fault : RunFault) →
        IsFileEnd (Scan profile eight) e → e.told ≡ Some bytes → e.answer ≡ Err fault → fault ≢ Write →
        (reports : List Scanned) × Finds eight (count_of profile) bytes e.left (Err fault) reports
        × (items_text e.items ≡ scan_text reports) × (exit_of_end e ≡ RefusedExit) }
    ensures greatest { (ends : List FileEnd) → All (λ e. exit_code (exit_of_end e) ≤ exit_code (files_exit ends)) ends }
    ensures reached { (e : FileEnd) (more : List FileEnd) →
        Contains (map exit_of_end (e ∷ more)) (files_exit (e ∷ more)) }
    ensures said { (texts : List Text) (sink : Change SinkState) → ArePut texts sink → IsSaid (concat texts) sink }
{}

/// An object of JSON is written as one line, whatever the file's name. What comes before the line feed reads back as the
/// tokens of the object, and as the object itself. This holds if each value is nothing, a text, the decimal digits of a
/// number below 2^64, or true, as it is in the objects of an item, of a fault and of a file that can't be opened.
pub fn json_lines_read_back()
    ensures line { (members : List Member) → HaveValues members → IsLine (json_line members) }
    ensures read { (members : List Member) (front : Text) → HaveValues members →
        json_line members ≡ front ++ 10 ∷ [] → tokens front ≡ object members }
    ensures value { (members : List Member) (front : Text) → HaveValues members →
        json_line members ≡ front ++ 10 ∷ [] → document front ≡ Some (json_object (members_of members)) }
    ensures item { (label : Option Text) (item : Item) → FitsItem item →
        HaveValues (file_member label ∷ item_members item) }
    ensures fault { (label : Option Text) (fault : RunFault) → FitsFault fault →
        HaveValues (file_member label ∷ fault_members fault) }
    ensures unread { (label : Option Text) (reason : Unopened) →
        HaveValues (file_member label ∷ unread_members reason) }
{}

/// An input is called empty exactly if it has no bytes, whether it was read as sixel text or as a picture file.
pub fn empty_inputs_are_named()
    ensures text { (bytes : List ℕ) (fault : Fault) → IsFaultOf bytes fault →
        is_of_empty (Grammar fault) ≡ true ↔ bytes ≡ [] }
    ensures picture { (profile : Profile) (bytes : List ℕ) (reason : PpmReason) (place : ℕ) →
        ppm_read (count_of profile) bytes ≡ at_fault reason place →
        is_of_empty (Ppm reason place) ≡ true ↔ bytes ≡ [] }
{}
