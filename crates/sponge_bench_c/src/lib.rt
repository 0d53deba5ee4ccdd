// The digest for C as a static library, for tools/bench_sponge.c alone: the function of its name in crate sponge_bench, with its clause.
#![tactic(auto)]

ghost use Rattle.std.specs.Prelude.{◌≡◌};
ghost use Rattle.sponge.specs.Digest.{digest};

use sponge_bench::Digest;

#[unsafe(no_mangle)]
pub extern "C" fn sponge_bench_digest(message: &[u8]) -> Digest
    ensures { result.bytes ≡ digest message.now }
{
    sponge_bench::sponge_bench_digest(message)
}
