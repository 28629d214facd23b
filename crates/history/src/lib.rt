// What the standing frames tell, and that the picture's bytes show it: the crate is its statements (specs/) and their proofs (proofs/).
#![tactic(auto)]

ghost use Rattle.std.specs.Prelude.{◌≡◌};
ghost use Rattle.history.specs.Standing.{deepest};

// The greatest depth of a way back; the one function here, because a crate must have one.
pub fn deepest() -> u8
    ensures { result ≡ deepest }
{
    64
}
