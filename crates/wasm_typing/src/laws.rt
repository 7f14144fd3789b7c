// Laws of the typing of instructions.
ghost use Rattle.wasm_typing.specs.Laws.{MayBeCut, MayBeJoined, MayStandHigher, BeginsTyped};

/// Says laws of the typing, on which the running of typed instructions stands. It does nothing when it runs:
/// its contract is what the
/// check has proved.
pub fn typing_laws()
    ensures cut { MayBeCut }
    ensures joined { MayBeJoined }
    ensures higher { MayStandHigher }
    ensures begins { BeginsTyped }
{}
