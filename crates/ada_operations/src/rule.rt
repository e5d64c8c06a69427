//! The rules on the bodies of operations.

ghost use Rattle.std.specs.Prelude.{◌≡◌};
ghost use Rattle.ada_operations.specs.Operations.{rule_number};

/// A rule on the bodies that override operations of controlled types.
#[derive(Clone, Copy, Debug, PartialEq, Eq)]
pub enum OperationRule {
    /// S8: Adjust or Finalize uses objects of an access type whose collection may have ended.
    FinalizeOrder,
    /// S9: an exception may come out of Adjust or Finalize.
    MayPropagate,
    /// S10: Finalize creates an object.
    FinalizeAllocates,
}

impl OperationRule {
    /// The number of the rule, as it is printed.
    pub fn number(self) -> u8
        ensures { result ≡ rule_number self }
    {
        match self {
            OperationRule::FinalizeOrder => 8,
            OperationRule::MayPropagate => 9,
            OperationRule::FinalizeAllocates => 10,
        }
    }
}
