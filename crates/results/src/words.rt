// The result word: bits 0 to 15 the value; bits 16 to 23 the refusal number; bits 24 to 31 the number of the data byte that a 9 comes with.
ghost use Rattle.std.specs.Prelude.{◌≡◌};
ghost use Rattle.laws.specs.Codes.{coded};
ghost use Rattle.shape.specs.Answers.{valued, filled};
ghost use Rattle.results.specs.Words.{refused_word, outcome_word, answer_word, room_word};

use laws::Refusal;
use shape::NOT_HEARD;

// Any number is taken for a refusal's, in its own word or in an answer's: a caller may have its own.
pub fn refused(code: u16) -> u32
    ensures { result ≡ refused_word code }
{
    65536 * code as u32
}

pub fn outcome_word(outcome: Result<(), u16>) -> u32
    ensures { result ≡ outcome_word outcome }
{
    match outcome {
        Ok(()) => 0,
        Err(code) => refused(code),
    }
}

// Of a question on a place, which may be not heard.
pub fn answer_word(answer: Result<Option<u16>, u16>) -> u32
    ensures { result ≡ answer_word answer }
{
    match answer {
        Ok(Some(value)) => value as u32,
        Ok(None) => NOT_HEARD as u32,
        Err(code) => refused(code),
    }
}

// Of a question that is always answered by a number.
pub fn value_word(answer: Result<u16, Refusal>) -> u32
    ensures { result ≡ answer_word (valued (coded answer)) }
{
    match answer {
        Ok(value) => value as u32,
        Err(refusal) => refused(refusal.code()),
    }
}

// Of a question that fills a buffer.
pub fn filled_word(answer: Result<(), Refusal>) -> u32
    ensures { result ≡ answer_word (filled (coded answer)) }
{
    match answer {
        Ok(()) => 0,
        Err(reason) => refused(reason.code()),
    }
}

// The word of a call that fills `need` bytes of a buffer of `room`.
pub fn room_word(room: usize, need: u16) -> u32
    ensures { result ≡ room_word room need }
{
    if need as usize <= room {
        need as u32
    } else {
        refused(Refusal::TooShort.code())
    }
}
