//! Laws of lists of steps. Each function stands for the law that its clause states.

ghost use Rattle.vx_run.specs.Steps.{StepsMakeARun};

/// Steps of which each has no fault in the arrays before it, and appends what it makes of them, are
/// a run: the arrays after them have the rows that definitions give. So steps that are applied one
/// by one give what `run` gives.
pub fn steps_make_a_run()
    ensures { StepsMakeARun }
{}
