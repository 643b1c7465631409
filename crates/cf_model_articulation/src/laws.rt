//! What is proved of the definitions themselves: worked rows of a fund's later level of control,
//! which the checker computes.

ghost use Rattle.cf_model_articulation.specs.WorkedLevels.{CarriesOntoItsLine, ShowsItsLine, LapsesWithoutLine, NamesLinesOfTheYear, NamesAccountsOfTheYear, TakesBothLevels};

/// On short histories that were worked by hand a roll into a later level carries what has a line
/// there and lets the rest lapse, and names are those of the year. So a slip that a definition and
/// its code made alike is refused here.
pub fn worked_levels()
    ensures carried { CarriesOntoItsLine }
    ensures shown { ShowsItsLine }
    ensures lapsed { LapsesWithoutLine }
    ensures lines { NamesLinesOfTheYear }
    ensures accounts { NamesAccountsOfTheYear }
    ensures stripes { TakesBothLevels }
{}
