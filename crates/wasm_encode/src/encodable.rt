// When a module has a binary form.
ghost use Rattle.wasm_encode.specs.Encodable.{IsEncodable};
ghost use Rattle.wasm_encode.specs.inner.Gains.{IsSpelled};
ghost use Rattle.wasm_module.specs.Sections.{Spells, Syntax};
ghost use Rattle.wasm_values.specs.Syntax.{Ops};

/// Says that each module which is encodable is spelled by some bytes, so that it may be given to
/// `encode`. It does nothing when it runs: its contract is the law, and callers cite the lemma
/// `encodable_spelled` of `proofs/Exists.antt`, which is its proof.
pub fn encodable_modules_are_spelled()
    ensures { (m : Syntax Ops) → IsEncodable m → IsSpelled Spells m }
{}
