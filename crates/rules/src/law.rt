// The law, for every run: these functions do nothing, and their contracts state it.
ghost use Rattle.rules.specs.Laws.{AlwaysSafe, RowsAlways};

// Under every book and over every wire, every run from a line just made over a silent wire is safe.
pub fn always_safe()
    ensures { AlwaysSafe }
{}

// Whatever waits on the wire at the start, the rows of every end stay in order.
pub fn rows_always()
    ensures { RowsAlways }
{}
