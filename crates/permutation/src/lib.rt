// The permutation KECCAK-f[1600]. Within it six lanes of the state are held complemented, and the parities of the columns stand behind the lanes.
#![tactic(auto)]

ghost use Rattle.std.specs.Prelude.{◌≡◌, ◌<◌, length};
ghost use Rattle.keccak.specs.Keccak as K;
ghost use Rattle.keccak.specs.Held.{held};
ghost use Rattle.keccak.specs.Parities.{lanes_of, with_parities};

use keccak_round::round;

// The state, and behind its 25 lanes C[0] to C[4] of θ: C[x] is the parity of each column of sheet x.
fn with_parities(a: [u64; 25]) -> [u64; 30]
    ensures { result ≡ with_parities a }
{
    let a0 = a[0];
    let a1 = a[1];
    let a2 = a[2];
    let a3 = a[3];
    let a4 = a[4];
    let a5 = a[5];
    let a6 = a[6];
    let a7 = a[7];
    let a8 = a[8];
    let a9 = a[9];
    let a10 = a[10];
    let a11 = a[11];
    let a12 = a[12];
    let a13 = a[13];
    let a14 = a[14];
    let a15 = a[15];
    let a16 = a[16];
    let a17 = a[17];
    let a18 = a[18];
    let a19 = a[19];
    let a20 = a[20];
    let a21 = a[21];
    let a22 = a[22];
    let a23 = a[23];
    let a24 = a[24];
    [
        a0,
        a1,
        a2,
        a3,
        a4,
        a5,
        a6,
        a7,
        a8,
        a9,
        a10,
        a11,
        a12,
        a13,
        a14,
        a15,
        a16,
        a17,
        a18,
        a19,
        a20,
        a21,
        a22,
        a23,
        a24,
        a0 ^ a5 ^ a10 ^ a15 ^ a20,
        a1 ^ a6 ^ a11 ^ a16 ^ a21,
        a2 ^ a7 ^ a12 ^ a17 ^ a22,
        a3 ^ a8 ^ a13 ^ a18 ^ a23,
        a4 ^ a9 ^ a14 ^ a19 ^ a24,
    ]
}

// The 25 lanes.
fn lanes(a: [u64; 30]) -> [u64; 25]
    ensures { result ≡ lanes_of a }
{
    [
        a[0], a[1], a[2], a[3], a[4], a[5], a[6], a[7], a[8], a[9], a[10], a[11], a[12], a[13],
        a[14], a[15], a[16], a[17], a[18], a[19], a[20], a[21], a[22], a[23], a[24],
    ]
}

// The round constant of round i. LLVM makes a table of the `match`, where an array that is indexed by a variable would go to the stack first.
fn round_constant(i: usize) -> u64
    requires { i < 24 }
    ensures { result ≡ K.constant i }
{
    match i {
        0 => 0x0000000000000001,
        1 => 0x0000000000008082,
        2 => 0x800000000000808a,
        3 => 0x8000000080008000,
        4 => 0x000000000000808b,
        5 => 0x0000000080000001,
        6 => 0x8000000080008081,
        7 => 0x8000000000008009,
        8 => 0x000000000000008a,
        9 => 0x0000000000000088,
        10 => 0x0000000080008009,
        11 => 0x000000008000000a,
        12 => 0x000000008000808b,
        13 => 0x800000000000008b,
        14 => 0x8000000000008089,
        15 => 0x8000000000008003,
        16 => 0x8000000000008002,
        17 => 0x8000000000000080,
        18 => 0x000000000000800a,
        19 => 0x800000008000000a,
        20 => 0x8000000080008081,
        21 => 0x8000000000008080,
        22 => 0x0000000080000001,
        _ => 0x8000000080008008,
    }
}

const ONES: u64 = 0xffff_ffff_ffff_ffff;

// The state with the six lanes complemented, or as it was, if they are.
fn complement_six(a: [u64; 25]) -> [u64; 25]
    ensures { result ≡ held a }
{
    [
        a[0],
        a[1] ^ ONES,
        a[2] ^ ONES,
        a[3],
        a[4],
        a[5],
        a[6],
        a[7],
        a[8] ^ ONES,
        a[9],
        a[10],
        a[11],
        a[12] ^ ONES,
        a[13],
        a[14],
        a[15],
        a[16],
        a[17] ^ ONES,
        a[18],
        a[19],
        a[20] ^ ONES,
        a[21],
        a[22],
        a[23],
        a[24],
    ]
}

// The permutation: 24 rounds. LLVM unrolls the inner loop, and so needs no copy of the state between its two rounds.
pub fn keccak_f(a: &mut [u64; 25])
    requires { length a.old ≡ 25 }
    ensures { a.new ≡ K.keccak_f a.old }
{
    let mut s = with_parities(complement_six(*a));
    for i in 0..12 {
        for j in 0..2 {
            let t = round(s, round_constant(2 * i + j));
            s = t;
        }
    }
    let t = complement_six(lanes(s));
    *a = t;
}
