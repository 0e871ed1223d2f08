//! Laws about the rules. Each function's contract is the law.

ghost use Rattle.sixel_named_terminals.specs.declared.named.Named.{Named as AName};
ghost use Rattle.sixel_named_terminals_laws.specs.Laws.{BandsAreTheHeight, BareSelectIsUnsaid, BareSelectIsZero};
ghost use Rattle.sixel_named_terminals_laws.specs.Laws.{BareSelectStops, BlankSixelIsFirst, ChanceIsUnsaid};
ghost use Rattle.sixel_named_terminals_laws.specs.Laws.{CornerIsUnsaid};
ghost use Rattle.sixel_named_terminals_laws.specs.Laws.{DataPastTheWidthIsCut, DroppedRasterOpensNothing};
ghost use Rattle.sixel_named_terminals_laws.specs.Laws.{DroppedSelectOpens};
ghost use Rattle.sixel_named_terminals_laws.specs.Laws.{EndsAtAnEvent, EndsAtOnePosition, FarBlankIsUnsaid};
ghost use Rattle.sixel_named_terminals_laws.specs.Laws.{FarColumnsAreLost, FarRepeatReturns, FarSixelStops, FiveMayMix};
ghost use Rattle.sixel_named_terminals_laws.specs.Laws.{GreatSideDoesNotCount, HighIntroducerStops, LongRatioIsTaken};
ghost use Rattle.sixel_named_terminals_laws.specs.Laws.{GoesToTheEnd, GreatestSidesFill, KonsoleIsRead, LargeSideStops};
ghost use Rattle.sixel_named_terminals_laws.specs.Laws.{LastBandEndsAtASixel, LastBandReturnsAtARepeat};
ghost use Rattle.sixel_named_terminals_laws.specs.Laws.{LastPositionIsRead, LateBoxIsUnsaid, LateRasterDoesNotCount};
ghost use Rattle.sixel_named_terminals_laws.specs.Laws.{LaterRatioIsUnsaid, NoWidthBeginsNothing, OneNumberStops};
ghost use Rattle.sixel_named_terminals_laws.specs.Laws.{OtherNumbersAreUnsaid};
ghost use Rattle.sixel_named_terminals_laws.specs.Laws.{RatioIsNotHeard, TwoNumbersAreABox};
ghost use Rattle.sixel_named_terminals_laws.specs.Laws.{WrittenHeightStops};
ghost use Rattle.sixel_named_terminals_laws.specs.Laws.{NarrowBoxDoesNotCount, NoWidthStops, PenKeepsItsColour};
ghost use Rattle.sixel_named_terminals_laws.specs.Laws.{PositionsAreRead};
ghost use Rattle.sixel_named_terminals_laws.specs.Laws.{RatioIsTall, SamplesAreUnsaid, ShownDoesNotEnd, ShowsOneScreen};
ghost use Rattle.sixel_named_terminals_laws.specs.Laws.{ShowsOrEnds, SystemNineIsPercent};
ghost use Rattle.sixel_named_terminals_laws.specs.Laws.{StopsAtAnEvent};
ghost use Rattle.sixel_named_terminals_laws.specs.Laws.{TwoBoxesBelowAreUnsaid, UndefinedIsDrawn, UnknownSystemSticks};
ghost use Rattle.sixel_named_terminals_laws.specs.Laws.{WideBoxCuts};

/// What xterm makes of strings that were shown on it.
pub fn xterm_on_strings()
    ensures large_side { LargeSideStops }
    ensures no_width { NoWidthStops }
    ensures greatest_sides { GreatestSidesFill }
    ensures blank_sixel { BlankSixelIsFirst }
    ensures far_columns { FarColumnsAreLost }
    ensures high_introducer { HighIntroducerStops }
    ensures long_ratio { LongRatioIsTaken }
    ensures far_repeat { FarRepeatReturns }
    ensures far_sixel { FarSixelStops }
    ensures last_band_sixel { LastBandEndsAtASixel }
    ensures last_band_repeat { LastBandReturnsAtARepeat }
    ensures bare_select { BareSelectStops }
    ensures ratio { RatioIsNotHeard }
    ensures written_height { WrittenHeightStops }
    ensures one_number { OneNumberStops }
    ensures later_ratio { LaterRatioIsUnsaid }
{}

/// What foot makes of strings that were shown on it.
pub fn foot_on_strings()
    ensures great_side { GreatSideDoesNotCount }
    ensures narrow_box { NarrowBoxDoesNotCount }
    ensures wide_box { WideBoxCuts }
    ensures past_the_width { DataPastTheWidthIsCut }
    ensures late_box { LateBoxIsUnsaid }
    ensures pen { PenKeepsItsColour }
    ensures bare_select { BareSelectIsZero AName.Foot }
{}

/// What mlterm makes of strings that were shown on it.
pub fn mlterm_on_strings()
    ensures chance { ChanceIsUnsaid }
    ensures samples { SamplesAreUnsaid }
    ensures system_nine { SystemNineIsPercent }
    ensures five { FiveMayMix }
    ensures corner { CornerIsUnsaid }
    ensures far_blank { FarBlankIsUnsaid }
    ensures two_boxes { TwoBoxesBelowAreUnsaid }
    ensures undefined { UndefinedIsDrawn }
    ensures bare_select { BareSelectIsUnsaid }
{}

/// The rectangles that konsole fills for strings that were shown on it.
pub fn konsole_on_strings()
    ensures dropped_select { DroppedSelectOpens }
    ensures late_raster { LateRasterDoesNotCount }
    ensures dropped_raster { DroppedRasterOpensNothing }
    ensures tall { RatioIsTall }
    ensures unknown_system { UnknownSystemSticks }
    ensures bare_select { BareSelectIsZero AName.Konsole }
    ensures no_width { NoWidthBeginsNothing }
    ensures two_numbers { TwoNumbersAreABox }
    ensures other_numbers { OtherNumbersAreUnsaid }
{}

/// What a reading makes of an event, with the events before it and the one after, is what its model makes of the event
/// at that position.
pub fn positions_are_read()
    ensures { PositionsAreRead }
{}

/// The same for the last event.
pub fn last_position_is_read()
    ensures { LastPositionIsRead }
{}

/// A picture of foot's without raster attributes is as high as its bands.
pub fn bands_are_the_height()
    ensures { BandsAreTheHeight }
{}

/// What a course that has come to the end of a string says of it.
pub fn courses_end()
    ensures goes { GoesToTheEnd }
    ensures stopped { StopsAtAnEvent }
    ensures ended { EndsAtAnEvent }
{}

/// The reading of konsole is the rectangle, and then what each event gives: konsole never stops.
pub fn konsole_is_read()
    ensures { KonsoleIsRead }
{}

/// Each named terminal shows one screen of a string, or its model ends at one event.
pub fn named_terminals_show()
    ensures one_screen { ShowsOneScreen }
    ensures one_position { EndsAtOnePosition }
    ensures not_both { ShownDoesNotEnd }
    ensures either { ShowsOrEnds }
{}
