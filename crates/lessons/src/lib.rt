// What a picture that listens to a bench shows: the crate is its statements (specs/) and their proofs (proofs/).
#![tactic(auto)]

ghost use Rattle.std.specs.Prelude.{◌≡◌};
ghost use Rattle.replies.specs.Replies.{blocks};

// How many replies a dump gives; the one function here, because a crate must have one.
pub fn dump_replies() -> u16
    ensures { result ≡ blocks }
{
    64
}
