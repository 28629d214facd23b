// What the byte of a refusal 9 means: the statement (specs/) that it is the first data byte, from the left, that no allowed choice of the later ones
// can repair, and its proof (proofs/); and a refusal's code taken apart.
#![tactic(auto)]

ghost use Rattle.std.specs.Prelude.{◌≡◌};
ghost use Rattle.laws.specs.Refusals.{number_in, byte_in};

// The number of the refusal.
pub fn number_in(code: u16) -> u16
    ensures { result ≡ number_in code }
{
    code % 256
}

// The data byte that it comes with, from 1; 0 where it comes with none.
pub fn byte_in(code: u16) -> u16
    ensures { result ≡ byte_in code }
{
    code / 256
}
