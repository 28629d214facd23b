// An answer with the number of its refusal, as a result word has it.
ghost use Rattle.std.specs.Prelude.{◌≡◌};
ghost use Rattle.laws.specs.Codes.{coded};

use laws::Refusal;

pub(crate) fn by_code<A>(answer: Result<A, Refusal>) -> Result<A, u16>
    ensures { result ≡ coded answer }
{
    match answer {
        Ok(value) => Ok(value),
        Err(refusal) => Err(refusal.code()),
    }
}
