//! Laws of edits: what each keeps, what it counts, and what it may read.
ghost use Rattle.map_edits.specs.CountLaws.{AcceptedReads, DepthIsPlace, FaultReads, NoneIsDeeper, OtherReads, UnchangedCountsNothing};
ghost use Rattle.map_edits.specs.GroupLaws.{LawfulStays, NoFaultStays};
ghost use Rattle.map_edits.specs.LimitLaws.{FewStay};
ghost use Rattle.map_edits.specs.ListingLaws.{AllAreListed, AreListed};
ghost use Rattle.map_edits.specs.StampLaws.{StampsAreKept};
ghost use Rattle.map_edits.specs.ValueLaws.{DefinedLacksNone, NoneIsLawful, OthersKeepValues, ValueIsMade};

/// A statement that the edit did not write, with its operands' and its own cells as before, has no changed tile, no
/// damage and no work.
pub fn unchanged_law()
    ensures { UnchangedCountsNothing }
{}

/// A sum over flat statements by depth is the sum over them in order of place.
pub fn depth_law()
    ensures { DepthIsPlace }
{}

/// What an accepted edit may read is told by its counts. One that is refused for a fault may read as much as if it had
/// none, cut at the depth of the fault, and one that is refused otherwise nothing.
pub fn allowance_law()
    ensures accepted { AcceptedReads }
    ensures fault { FaultReads }
    ensures other { OtherReads }
    ensures deepest { NoneIsDeeper }
{}

/// What every accepted edit keeps: procedures are made one after another, the flat statements of a statement are rightly
/// named, names stand apart, and there is no cycle. Where no layer has a fault, none has one after it.
pub fn lawful_law()
    ensures first { NoneIsLawful }
    ensures lawful { LawfulStays }
    ensures faultless { NoFaultStays }
{}

/// A layer's grid is made of those of its operands, and more steps change nothing. It has one exactly where it lacks no
/// name. An edit changes no grid but those of the edited name's layers, and of those from which the name is reached.
pub fn value_law()
    ensures made { ValueIsMade }
    ensures defined { DefinedLacksNone }
    ensures others { OthersKeepValues }
{}

/// By depth each flat statement of a lawful state stands once, after those that it needs.
pub fn listing_law()
    ensures listed { AreListed }
    ensures all { AllAreListed }
{}

/// A layer that is defined has its stamps, and no other has some.
pub fn stamp_law()
    ensures { StampsAreKept }
{}

/// Every accepted edit keeps the limits.
pub fn limit_law()
    ensures { FewStay }
{}
