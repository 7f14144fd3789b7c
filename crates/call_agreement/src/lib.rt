// The law that calls for claims, sites and new creeps agree with their rules.
#![tactic(auto)]

ghost use Rattle.call_agreement.specs.Agreeing.{ClaimsAgree, RemovalsAgree, SitesAgree, SpawnsAgree};

/// Says that a call for a claim, a site, a removal or a new creep, answered 0, records its entry, which fails
/// no check of its rule on the sound world that its player sees. What the call checks besides, the rule does
/// not. It does nothing when it runs.
pub fn more_calls_agree_with_rules()
    ensures claims { ClaimsAgree }
    ensures sites { SitesAgree }
    ensures removals { RemovalsAgree }
    ensures spawns { SpawnsAgree }
{}
