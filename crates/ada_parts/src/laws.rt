//! The laws of treatments. Each is a function that does nothing, and whose contract is the theorem.

ghost use Rattle.std.specs.Prelude.{◌≡◌};
ghost use Rattle.ada_parts.specs.Shape.{IsTable, parts_of};
ghost use Rattle.ada_parts.specs.Law.{NumberedInOrder, EachOnce, AllInTheEnd, PartsComeFirst, WholesComeFirst, OneByOne};
ghost use Rattle.ada_parts.specs.Law.{ThereIsOne, ItEnds, CanBeReversed};
ghost use Rattle.ada_parts.specs.Example.{table, AnInitialization, AFinalization};

/// The parts of a record have the numbers from that of its first part on, without a gap.
pub fn parts_are_numbered()
    ensures { NumberedInOrder }
{}

/// The operation of each controlled part of an object is called once (7.6, 7.6.1).
pub fn each_part_is_treated_once()
    ensures once { EachOnce }
    ensures in_the_end { AllInTheEnd }
{}

/// An initialization and an adjustment go from the inside out, and a finalization from the outside in (7.6, 7.6.1); what is
/// picked is treated whole before the next component is picked.
pub fn parts_go_in_order()
    ensures parts_first { PartsComeFirst }
    ensures wholes_first { WholesComeFirst }
    ensures one_by_one { OneByOne }
{}

/// A treatment ends, whatever is picked, and where something is picked there is a component to pick.
pub fn treatments_end()
    ensures ends { ItEnds }
    ensures there_is_one { ThereIsOne }
{}

/// For each initialization there is a finalization in exactly the reverse order (7.6.1).
pub fn orders_can_be_reversed()
    ensures { CanBeReversed }
{}

/// The laws are not empty: there is a table, and an object with parts inside parts that is initialized and finalized.
pub fn premises_are_met()
    ensures table { IsTable table }
    ensures parts { parts_of table 2 ≡ 4 }
    ensures initialized { AnInitialization }
    ensures finalized { AFinalization }
{}
