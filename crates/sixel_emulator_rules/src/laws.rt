//! Laws about the rules and the answer. Each function's contract is the law.

ghost use Rattle.sixel_emulator_rules.specs.Laws.{FirstIsExact, NoneIsEarlier, NoneIsExact, UnbrokenNamesWithin};

/// What the answer says of documents that break no rule of portable pictures.
pub fn answers_are_exact()
    ensures within { UnbrokenNamesWithin }
    ensures none { NoneIsExact }
    ensures first { FirstIsExact }
    ensures earlier { NoneIsEarlier }
{}
