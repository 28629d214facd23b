// The buyer's three demands, each as one statement over the definitions of the crates below: the crate is its statements (specs/) and
// their proofs (proofs/).
#![tactic(auto)]

ghost use Rattle.std.specs.Prelude.{◌≡◌};
ghost use Rattle.laws.specs.Refusals.{sid0_set};

// The greatest refusal number; the one function here, because a crate must have one.
pub fn greatest_refusal() -> u16
    ensures { result ≡ sid0_set }
{
    laws::Refusal::Sid0Set.code()
}
