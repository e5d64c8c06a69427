//! The laws of what waits behind the end of a call. Each is a function that does nothing, and whose contract is the theorem.

ghost use Rattle.ada_waiting.specs.Example.{PremiseIsMet, PremiseIsNeeded};
ghost use Rattle.ada_waiting.specs.Law.{WhatWaitsStays};

/// Where something is left to do in a body itself, a step does the same whatever waits behind the end of its call: the same is
/// asked of storage and told to it, and the same is shown; and what waits is left as it is. Where the call itself comes to its
/// end, its caller has to be there.
pub fn what_waits_stays()
    ensures { WhatWaitsStays }
{}

/// The premise is met: a body ends, and gives a value back to its caller, while something else waits.
pub fn premise_is_met()
    ensures { PremiseIsMet }
{}

/// It is needed: where the caller is what waits, it gets a value back, and so does not stay as it is.
pub fn premise_is_needed()
    ensures { PremiseIsNeeded }
{}
