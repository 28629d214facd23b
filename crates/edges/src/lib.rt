// The starred edges of the rules, one table of what the definitions give and what is right: the crate is that table (specs/) and its proof (proofs/).
#![tactic(auto)]

ghost use Rattle.std.specs.Prelude.{◌≡◌};
ghost use Rattle.history.specs.Cases.{example};

// The address of the module that the edges show; the one function here, because a crate must have one.
pub fn example_address() -> u8
    ensures { result ≡ example }
{
    0x2A
}
