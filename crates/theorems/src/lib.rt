// What holds of all ways of sawing, each the contract of a function that has nothing else to do: a caller may cite it, and
// without its proof the crate fails.
#![tactic(auto)]

ghost use Rattle.theorems.specs.Rows.{TwoDoors, JustIt, AStripOff};
ghost use Rattle.theorems.specs.Statements.{HasBest, NoMoreThanThereIs, LargerSheet, LargerByTheBlade, MoreSorts, Turned, TurnedBest, HalfOfUprights, HalfOfLevels, FewNodes};

pub fn every_sheet_has_a_best_way()
    ensures { HasBest }
{}

pub fn pieces_fill_no_more_than_the_sheet()
    ensures { NoMoreThanThereIs }
{}

pub fn larger_sheet_is_worth_no_less()
    ensures off { LargerSheet }
    ensures blade { LargerByTheBlade }
{}

pub fn more_sorts_are_worth_no_less()
    ensures { MoreSorts }
{}

pub fn turned_it_is_the_same()
    ensures ways { Turned }
    ensures best { TurnedBest }
{}

pub fn half_of_the_cuts_is_enough()
    ensures uprights { HalfOfUprights }
    ensures levels { HalfOfLevels }
{}

pub fn ways_have_few_nodes()
    ensures { FewNodes }
{}

pub fn example_rows()
    ensures doors { TwoDoors }
    ensures piece { JustIt }
    ensures strip { AStripOff }
{}
