// The digest for C, for tools/bench_sponge.c alone.
#![tactic(auto)]

ghost use Rattle.std.specs.Prelude.{◌≡◌};
ghost use Rattle.sponge.specs.Digest.{digest};

#[repr(C)]
#[derive(Drop)]
pub struct Digest {
    pub bytes: [u8; 32],
}

#[unsafe(no_mangle)]
pub extern "C" fn sponge_bench_digest(message: &[u8]) -> Digest
    ensures { result.bytes ≡ digest message.now }
{
    let d = sponge::digest(message);
    Digest { bytes: d }
}
