ghost use Rattle.vx_language.specs.Examples.{ExamplesHold};
ghost use Rattle.vx_language.specs.Faults.{FirstsJoin};

/// The definitions, computed on small sources, give the stated faults and programs.
pub fn examples_hold()
    ensures { ExamplesHold }
{}

/// The first of all faults is the first of the firsts of any two parts, so that faults may be looked for in any order.
pub fn firsts_join()
    ensures { FirstsJoin }
{}
