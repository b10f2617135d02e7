ghost use Rattle.vx_episode.specs.Examples.{ExamplesHold};

/// The definitions give what is worked out for some small programs.
pub fn examples_hold()
    ensures { ExamplesHold }
{}
