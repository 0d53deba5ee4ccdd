// Lanes as bytes.
#![tactic(auto)]

ghost use Rattle.std.specs.Prelude.{◌≡◌, ◌≤◌, length, take};
ghost use Rattle.keccak.specs.Strings.{bytes};

// The first 32 bytes of a state.
pub fn squeeze(a: [u64; 25]) -> [u8; 32]
    ensures { result ≡ take 32 (bytes a) }
{
    let w = a[0].to_le_bytes();
    let x = a[1].to_le_bytes();
    let y = a[2].to_le_bytes();
    let z = a[3].to_le_bytes();
    [
        w[0], w[1], w[2], w[3], w[4], w[5], w[6], w[7], x[0], x[1], x[2], x[3], x[4], x[5], x[6],
        x[7], y[0], y[1], y[2], y[3], y[4], y[5], y[6], y[7], z[0], z[1], z[2], z[3], z[4], z[5],
        z[6], z[7],
    ]
}

// The first bytes of a state, at most as many as a block has.
pub fn squeeze_block(a: [u64; 25], out: &mut [u8])
    requires { length out.old ≤ 136 }
    ensures { out.new ≡ take (length out.old) (bytes a) }
{
    for (i, byte) in out.iter_mut().enumerate() {
        let shift = i % 8 * 8;
        *byte = ((a[i / 8] >> shift) % 256) as u8;
    }
}
