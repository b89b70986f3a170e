// What certificates are worth, and what makes their claims supported.
ghost use Rattle.certificates.specs.Right.{SupportedIsRight, SupportedAgree};
ghost use Rattle.certificates.specs.Relative.{WholeIsRelative};
ghost use Rattle.certificates.specs.Merging.{RoundsGrow, RoundsMerge};
ghost use Rattle.certificates.specs.Rounds.{OwnRoundsGrow, GrowthStops, FixedSupported, DirectSupported, VariableSupported, BinderSupported};

// A certificate of which every claim is supported is right: at every node in every state, and at the root with nothing assigned.
pub fn supported_claims_are_right()
    ensures { SupportedIsRight }
{}

// Two such certificates of one formula have the same sides.
pub fn supported_claims_agree()
    ensures { SupportedAgree }
{}

// Of all nodes of a formula, relative support is support.
pub fn whole_support_is_relative()
    ensures { WholeIsRelative }
{}

// In the rounds of a binder, what has its accumulating side keeps it.
pub fn rounds_grow()
    ensures { RoundsGrow }
{}

// The rounds of a binder merge into claims that are supported.
pub fn rounds_merge()
    ensures { RoundsMerge }
{}

// The rounds of EF, AG and the untils only grow.
pub fn own_rounds_grow()
    ensures { OwnRoundsGrow }
{}

// Sets that only grow stop within as many rounds as there are states.
pub fn growth_stops()
    ensures { GrowthStops }
{}

// The claims of EF, AG and the untils, as their rounds leave them, are supported.
pub fn fixed_points_are_supported()
    ensures { FixedSupported }
{}

// The claims of a direct kind, by one unfolding, are supported.
pub fn direct_kinds_are_supported()
    ensures { DirectSupported }
{}

// The claims of a variable with the given set of its binder are supported.
pub fn variables_are_supported()
    ensures { VariableSupported }
{}

// The claims of a binder with the sides of its body are supported.
pub fn binders_are_supported()
    ensures { BinderSupported }
{}
