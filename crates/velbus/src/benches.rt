// A bench module to teach on, in lent bytes.
ghost use Rattle.std.specs.Prelude.{◌≡◌};
ghost use Rattle.replies.specs.Bench.{bench_size};
ghost use Rattle.bench.specs.Making.{making};
ghost use Rattle.taking.specs.Taking.{taking};
ghost use Rattle.sight.specs.Words.{taken_word};
ghost use Rattle.results.specs.Words.{outcome_word};

use crate::codes::by_code;
use results::outcome_word;

pub fn velbus_bench_size() -> u32
    ensures { result ≡ bench_size }
{
    bench::bench_size()
}

pub fn velbus_bench_new(
    bench: &mut [u8],
    address: u32,
    cells: &[u8],
    version: u8,
    year: u8,
    week: u8,
) -> u32
    ensures value { result ≡ outcome_word (making bench.old address cells.now version year week).outcome }
    ensures bench_after { bench.new ≡ (making bench.old address cells.now version year week).buffer }
{
    outcome_word(by_code(bench::bench_new(bench, address, cells, version, year, week)))
}

pub fn velbus_bench_take(
    bench: &mut [u8],
    identifier: u32,
    remote: u32,
    data: &[u8],
    out: &mut [u8],
) -> u32
    ensures value { result ≡ taken_word (taking bench.old identifier remote «data».now out.old).answer }
    ensures bench_after { bench.new ≡ (taking bench.old identifier remote «data».now out.old).bench }
    ensures out_after { out.new ≡ (taking bench.old identifier remote «data».now out.old).buffer }
{
    sight::take_word(bench, identifier, remote, data, out)
}
