//! Laws about comparisons. Each function's contract is the law.

ghost use Rattle.sixel_differ_laws.specs.Laws.{OneComparison, OneGroupWhereAlike, OneSetOfViews, SomeComparison};
ghost use Rattle.sixel_differ_laws.specs.Laws.{ViewsOrFault};

/// The four terminals are one group exactly where all four models say what is shown, and the four screens are equal at
/// each pixel.
pub fn one_group_where_alike()
    ensures { OneGroupWhereAlike }
{}

/// The bytes of a document have one comparison.
pub fn documents_have_one_comparison()
    ensures views { OneSetOfViews }
    ensures comparison { OneComparison }
{}

/// Any bytes have a comparison, or a fault.
pub fn bytes_have_an_answer()
    ensures views { ViewsOrFault }
    ensures comparison { SomeComparison }
{}
