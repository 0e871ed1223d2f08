//! Laws about the definitions. Each function's contract is the law.

ghost use Rattle.sixel_scan.specs.Laws.{OneListOfStrings, SomeStrings};

/// Each stream has exactly one list of strings.
pub fn each_stream_has_one_list()
    ensures some { SomeStrings }
    ensures once { OneListOfStrings }
{}
