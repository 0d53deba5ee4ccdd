// A round of KECCAK-f[1600]. The 25 lanes of a state are named one by one, which lets the compiler keep them in registers. Six lanes are held
// complemented: χ then takes five complements a round, and not 25. The parities of the columns go from round to round with the lanes.
#![tactic(auto)]

ghost use Rattle.std.specs.Prelude.{◌≡◌, ◌<◌};
ghost use Rattle.lists.specs.Tabulate.{tabulate};
ghost use Rattle.keccak.specs.Lane.{rotl};
ghost use Rattle.keccak.specs.Keccak as K;
ghost use Rattle.keccak.specs.Held.{held, round_with};
ghost use Rattle.keccak.specs.Parities.{with_parities, HasParities};

// The lane rotated to the left by n. The mask keeps the second shift below 64 where n is 0.
fn rotate(x: u64, n: u32) -> u64
    requires { n < 64 }
    ensures { result ≡ rotl x n }
{
    (x << n) | (x >> ((64 - n) & 63))
}

// θ: D[0] to D[4] of the standard, where D[x] is what θ adds to each lane of sheet x.
fn theta_effect(a: [u64; 30]) -> [u64; 5]
    requires { HasParities a }
    ensures { result ≡ tabulate 5 (K.effect a) }
{
    [
        a[29] ^ rotate(a[26], 1),
        a[25] ^ rotate(a[27], 1),
        a[26] ^ rotate(a[28], 1),
        a[27] ^ rotate(a[29], 1),
        a[28] ^ rotate(a[25], 1),
    ]
}

// A round with the round constant k, plane by plane, of the state that `a` holds: θ, ρ and π at once, where each lane has its D[x] added and is rotated
// by its offset; then χ, by De Morgan's laws where lanes are complemented; and ι. The parities of the next round are summed here, while the planes are
// at hand. The planes come in an order that leaves the compiler the fewest copies of lanes: another one is right too.
pub fn round(a: [u64; 30], k: u64) -> [u64; 30]
    requires { HasParities a }
    ensures { result ≡ with_parities (held (round_with (held a) k)) }
{
    let d = theta_effect(a);
    let d0 = d[0];
    let d1 = d[1];
    let d2 = d[2];
    let d3 = d[3];
    let d4 = d[4];
    let b0 = rotate(a[0] ^ d0, 0);
    let b1 = rotate(a[6] ^ d1, 44);
    let b2 = rotate(a[12] ^ d2, 43);
    let b3 = rotate(a[18] ^ d3, 21);
    let b4 = rotate(a[24] ^ d4, 14);
    let e0 = b0 ^ (b1 | b2) ^ k;
    let e1 = b1 ^ (!b2 | b3);
    let e2 = b2 ^ (b3 & b4);
    let e3 = b3 ^ (b4 | b0);
    let e4 = b4 ^ (b0 & b1);
    let b20 = rotate(a[2] ^ d2, 62);
    let b21 = rotate(a[8] ^ d3, 55);
    let b22 = rotate(a[14] ^ d4, 39);
    let b23 = rotate(a[15] ^ d0, 41);
    let b24 = rotate(a[21] ^ d1, 2);
    let e20 = b20 ^ (!b21 & b22);
    let e21 = !b21 ^ (b22 | b23);
    let e22 = b22 ^ (b23 & b24);
    let e23 = b23 ^ (b24 | b20);
    let e24 = b24 ^ (b20 & b21);
    let b15 = rotate(a[4] ^ d4, 27);
    let b16 = rotate(a[5] ^ d0, 36);
    let b17 = rotate(a[11] ^ d1, 10);
    let b18 = rotate(a[17] ^ d2, 15);
    let b19 = rotate(a[23] ^ d3, 56);
    let e15 = b15 ^ (b16 & b17);
    let e16 = b16 ^ (b17 | b18);
    let e17 = b17 ^ (!b18 | b19);
    let e18 = !b18 ^ (b19 & b15);
    let e19 = b19 ^ (b15 | b16);
    let b5 = rotate(a[3] ^ d3, 28);
    let b6 = rotate(a[9] ^ d4, 20);
    let b7 = rotate(a[10] ^ d0, 3);
    let b8 = rotate(a[16] ^ d1, 45);
    let b9 = rotate(a[22] ^ d2, 61);
    let e5 = b5 ^ (b6 | b7);
    let e6 = b6 ^ (b7 & b8);
    let e7 = b7 ^ (b8 | !b9);
    let e8 = b8 ^ (b9 | b5);
    let e9 = b9 ^ (b5 & b6);
    let b10 = rotate(a[1] ^ d1, 1);
    let b11 = rotate(a[7] ^ d2, 6);
    let b12 = rotate(a[13] ^ d3, 25);
    let b13 = rotate(a[19] ^ d4, 8);
    let b14 = rotate(a[20] ^ d0, 18);
    let e10 = b10 ^ (b11 | b12);
    let e11 = b11 ^ (b12 & b13);
    let e12 = b12 ^ (!b13 & b14);
    let e13 = !b13 ^ (b14 | b10);
    let e14 = b14 ^ (b10 & b11);
    [
        e0,
        e1,
        e2,
        e3,
        e4,
        e5,
        e6,
        e7,
        e8,
        e9,
        e10,
        e11,
        e12,
        e13,
        e14,
        e15,
        e16,
        e17,
        e18,
        e19,
        e20,
        e21,
        e22,
        e23,
        e24,
        e0 ^ e20 ^ e15 ^ e5 ^ e10,
        e1 ^ e21 ^ e16 ^ e6 ^ e11,
        e2 ^ e22 ^ e17 ^ e7 ^ e12,
        e3 ^ e23 ^ e18 ^ e8 ^ e13,
        e4 ^ e24 ^ e19 ^ e9 ^ e14,
    ]
}
