//! Laws about the definitions. Each function's contract is the law.

ghost use Rattle.std.specs.Prelude.{◌≡◌, ◌∷◌, [], Contains, Some, List, Option};
ghost use Rattle.std.specs.Str.{str_to_ascii_lowercase};
ghost use Rattle.sixel_emulator_rules.specs.Names.{name_of};
ghost use Rattle.sixel_emulator_rules.specs.declared.rule.AskedRule.{AskedRule};
ghost use Rattle.sixel_model.specs.declared.rule.Rule.{Rule};
ghost use Rattle.sixel_explain.specs.declared.explanations.Topic.{Topic};
ghost use Rattle.sixel_report.specs.declared.fault.RunFault.{RunFault};
ghost use Rattle.sixel_explain.specs.Explanations.{line_of, listed_names, names_in, topic_name, topic_of, Asks};
ghost use Rattle.sixel_report.specs.Texts.{Text, rule_name, asked_entry_line, asked_line, entry_line, finding_line};
ghost use Rattle.sixel_report.specs.Texts.{reason_name, string_line};
ghost use Rattle.sixel_grammar.specs.declared.fault.Fault.{Fault};
ghost use Rattle.sixel_grammar.specs.declared.fault.Reason.TheVariants.{Truncated};
ghost use Rattle.sixel_scan.specs.declared.answer.Scanned.{Scanned};
ghost use Rattle.sixel_judge.specs.declared.verdict.Finding.{Finding};
ghost use Rattle.sixel_explain.specs.declared.explanations.Topic.TheVariants.{Read};
ghost use Rattle.sixel_messages.specs.declared.unopened.Unopened.{Unopened};
ghost use Rattle.sixel_messages.specs.Messages.{fault_said, labelled};
ghost use Rattle.sixel_messages.specs.Formats.{empty_line};
ghost use Rattle.sixel_messages.specs.Names.{unopened_line};
ghost use Rattle.sixel_scan.specs.declared.answer.Answer.TheVariants.{Broken, Refused};
ghost use Rattle.sixel_survey.specs.declared.entry.Entry.{Entry};
ghost use Rattle.sixel_emulator_rules.specs.declared.asking.AskedFinding.{AskedFinding};
ghost use Rattle.sixel_emulator_rules.specs.declared.tally.AskedEntry.{AskedEntry};
ghost use Rattle.sixel_explain_laws.specs.Laws.{ArePasted};

/// `explain` lists the name of each rule, also of those that named terminals ask for, and of each fault of a run.
pub fn each_name_is_listed()
    ensures rules { (rule : Rule) → Contains listed_names (rule_name rule) }
    ensures asked { (rule : AskedRule) → Contains listed_names (name_of rule) }
    ensures faults { (fault : RunFault) → Contains listed_names (topic_name (topic_of fault)) }
{}

/// `explain` takes a name in any case of letters.
pub fn a_name_may_be_in_any_case()
    ensures { (topic : Topic) (word : Text) →
        str_to_ascii_lowercase word ≡ str_to_ascii_lowercase (topic_name topic) →
        names_in (line_of (word ∷ [])) ≡ Some (topic_name topic ∷ []) }
{}

/// Each line that the program writes about a broken rule, a fault, an empty input or a file that can't be opened asks for
/// its topic, if it is pasted after `explain`. This holds for the lines of `check`, of `survey` and of `scan`, for rules
/// of portable pictures and those that named terminals ask for, and for lines with a file's name and those without one.
pub fn each_line_can_be_explained()
    ensures broken { (name : Option Text) (finding : Finding) (said : List Text) →
        ArePasted said (labelled name (finding_line finding)) → Asks (Some said) (rule_name finding.rule ∷ []) }
    ensures asked { (name : Option Text) (finding : AskedFinding) (said : List Text) →
        ArePasted said (labelled name (asked_line finding)) → Asks (Some said) (name_of finding.rule ∷ []) }
    ensures surveyed { (name : Option Text) (entry : Entry) (said : List Text) →
        ArePasted said (labelled name (entry_line entry)) → Asks (Some said) (rule_name entry.rule ∷ []) }
    ensures asked_surveyed { (name : Option Text) (entry : AskedEntry) (said : List Text) →
        ArePasted said (labelled name (asked_entry_line entry)) → Asks (Some said) (name_of entry.rule ∷ []) }
    ensures scanned { (name : Option Text) (string : Scanned) (finding : Finding) (said : List Text) →
        ArePasted said (labelled name (string_line (record string { answer = Broken finding }))) →
        Asks (Some said) (rule_name finding.rule ∷ []) }
    ensures scan_refused { (name : Option Text) (string : Scanned) (fault : Fault) (said : List Text) →
        ArePasted said (labelled name (string_line (record string { answer = Refused fault }))) →
        Asks (Some said) (reason_name fault.reason ∷ []) }
    ensures refused { (name : Option Text) (fault : RunFault) (said : List Text) →
        ArePasted said (fault_said name fault) → Asks (Some said) (topic_name (topic_of fault) ∷ []) }
    ensures unopened { (name : Text) (reason : Unopened) (said : List Text) →
        ArePasted said (unopened_line name reason) → Asks (Some said) (topic_name Read ∷ []) }
    ensures empty { (said : List Text) →
        ArePasted said empty_line → Asks (Some said) (reason_name Truncated ∷ []) }
{}
