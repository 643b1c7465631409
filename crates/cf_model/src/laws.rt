//! What is proved of the definitions themselves: worked rows, which the checker computes, and laws.

ghost use Rattle.cf_model.specs.Laws.{ChargesAddUp, InterestAddsUp, EarnsByDays, RepeatsAddNothing};
ghost use Rattle.cf_model.specs.Worked.{SpendsToTheCent, TellsRoom, LiquidatesOrders, RollsOrders, RecognisesCollections, DepreciatesByMonths, EarnsInterest, KeepsLeave, JoinsBothBases, TellsRepeats, RefusesInOrder, ClosesInOrder, PaysFromCash};

/// On short histories that were worked by hand the definitions say what they should: so a slip that
/// a definition and its code made alike is refused here.
pub fn worked_rows()
    ensures room { SpendsToTheCent }
    ensures verdicts { TellsRoom }
    ensures orders { LiquidatesOrders }
    ensures roll { RollsOrders }
    ensures window { RecognisesCollections }
    ensures depreciation { DepreciatesByMonths }
    ensures interest { EarnsInterest }
    ensures leave { KeepsLeave }
    ensures bases { JoinsBothBases }
    ensures repeats { TellsRepeats }
    ensures order { RefusesInOrder }
    ensures closes { ClosesInOrder }
    ensures cash { PaysFromCash }
{}

/// What the closes of months charge adds up: of an asset to its accumulated depreciation, of a bond
/// to the interest that it earned.
pub fn months_add_up()
    ensures assets { ChargesAddUp }
    ensures bonds { InterestAddsUp }
{}

/// The interest of a bond by civil days: the coupons due by the end of a month, and of the next
/// payment the interest for its days by months of 30 days.
pub fn interest_by_days()
    ensures { EarnsByDays }
{}

/// A call that was taken and comes again adds nothing, whatever came between.
pub fn repeats_add_nothing()
    ensures { RepeatsAddNothing }
{}
