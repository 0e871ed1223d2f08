//! Laws about the portable pictures that the named terminals show. Each function's contract is the law.

ghost use Rattle.std.specs.Prelude.{ℕ};
ghost use Rattle.sixel_model.specs.Profiles.{count_of};
ghost use Rattle.sixel_model.specs.declared.profile.Profile.{Profile};
ghost use Rattle.sixel_named_terminals.specs.declared.named.Named.{Named};
ghost use Rattle.sixel_emulator_rules_laws.specs.Witnesses.{EachRuleHasAWitness, FarBreaksPast};
ghost use Rattle.sixel_emulator_rules_laws.specs.Laws.{CanonSuitsFoot, CanonSuitsKonsole, CanonSuitsMlTerm};
ghost use Rattle.sixel_emulator_rules_laws.specs.Laws.{CanonSuitsXTerm};
ghost use Rattle.sixel_emulator_rules_laws.specs.Laws.{CanonDefinesFirst, CanonShownOnFoot, FirstIsNotStale};
ghost use Rattle.sixel_emulator_rules_laws.specs.Laws.{ShowsPortable};
ghost use Rattle.sixel_emulator_rules_laws.specs.Laws.{EachWitnessIsShownWrong, LateDefinitionsCanDiffer};
ghost use Rattle.sixel_emulator_rules_laws.specs.Wrong.{BareStringIsShownWrong, EachWitnessHasAPixel, MlTermEndsAtEach};

/// If a list breaks no rule, and none of those that a named terminal asks for, that terminal shows the picture.
pub fn named_terminals_show_portable_pictures()
    ensures xterm { (profile : Profile) → ShowsPortable Named.XTerm (count_of profile) }
    ensures mlterm { (profile : Profile) → ShowsPortable Named.MlTerm (count_of profile) }
    ensures foot { (profile : Profile) → ShowsPortable Named.Foot (count_of profile) }
    ensures konsole { (profile : Profile) → ShowsPortable Named.Konsole (count_of profile) }
{}

/// For each rule of which events tell there is a document that breaks it, no rule of portable pictures, and no other
/// rule that a named terminal asks for; only the one for `Far` breaks `Past`, too.
pub fn each_rule_has_a_witness()
    ensures { EachRuleHasAWitness }
{}

/// What breaks `Far` breaks `Past`, too, if it breaks no rule of portable pictures.
pub fn far_breaks_past()
    ensures { FarBreaksPast }
{}

/// A terminal that asks for a rule, of which events tell, shows that document otherwise than its picture at this pixel;
/// or it is mlterm, whose model ends at the event that breaks the rule.
pub fn each_witness_has_a_pixel()
    ensures pixel { EachWitnessHasAPixel }
    ensures mlterm { MlTermEndsAtEach }
{}

/// A string with a select without a number breaks `Bare` and no other rule. xterm shows its first pixel wrong, and
/// mlterm's model ends at the select.
pub fn bare_string_is_shown_wrong()
    ensures { BareStringIsShownWrong }
{}

/// No terminal that asks for a rule, of which events tell, shows that document right.
pub fn each_witness_is_shown_wrong()
    ensures { EachWitnessIsShownWrong }
{}

/// Each painting command is in the colour that its register had when it was selected, as foot asks, if no definition
/// comes after a selection.
pub fn early_definitions_are_not_stale()
    ensures { FirstIsNotStale }
{}

/// In the canonical list of a picture no definition comes after a selection, and foot shows the picture.
pub fn canonical_lists_define_first()
    ensures first { CanonDefinesFirst }
    ensures shown { (profile : Profile) → CanonShownOnFoot (count_of profile) }
{}

/// The canonical list of a picture breaks none of the rules that mlterm and foot ask for. If no side is above 1,000 and
/// no colour is by hue, it breaks none that xterm asks for; if the height is a multiple of six, none that konsole asks
/// for.
pub fn canonical_lists_break_no_asked_rules()
    ensures mlterm { (registers : ℕ) → CanonSuitsMlTerm registers }
    ensures foot { (registers : ℕ) → CanonSuitsFoot registers }
    ensures xterm { (registers : ℕ) → CanonSuitsXTerm registers }
    ensures konsole { (registers : ℕ) → CanonSuitsKonsole registers }
{}

/// A list that breaks no rule can show another colour on foot, if a definition comes after a selection.
pub fn late_definitions_can_differ()
    ensures { (profile : Profile) → LateDefinitionsCanDiffer (count_of profile) }
{}
