ghost use Rattle.abstraction.specs.Showing.{ShowsExactly};

// A shown move leads where the move led, and has an event exactly if some rule shows it whose seen event the move had.
pub fn rules_show_exactly()
    ensures { ShowsExactly }
{}
