// Leaves by draw: each word of a draw names by rank one of the unused leaves; those chosen so far stay in rising order.
#![tactic(auto)]

ghost use Rattle.std.specs.Prelude.{◌≡◌, [], ◌∷◌, ◌++◌, ◌+◌, ◌-◌, ◌*◌, ◌≤◌, ◌<◌, length, take, drop};
ghost use Rattle.lists.specs.Bytes.{doubles};
ghost use Rattle.scheme.specs.Sizes.{most_leaves};
ghost use Rattle.fiat_shamir.specs.Draw.{ranks_at};
ghost use Rattle.fiat_shamir.specs.Ranks.{drawn_into};
ghost use Rattle.leaf_draw.specs.Place.{place_of};

use words::word;

// Where the words of a draw begin that name leaves.
pub const RANKS_AT: usize = 32;

// How many of the used leaves, which rise, come before the unused one of this rank. Each of them makes its index one greater than its rank.
fn place_of(used: &[usize], rank: usize) -> usize
    requires { (rank < most_leaves) × (length used.now ≤ most_leaves) }
    ensures { result ≡ place_of rank used.now }
{
    for (k, leaf) in used.iter().enumerate() {
        if rank + k < *leaf {
            return k;
        }
    }
    used.len()
}

// x at place k of the first n; those from there on move up by one place. By hand, since the library's way wants memmove of the C library.
fn insert(out: &mut [usize], n: usize, k: usize, x: usize)
    requires { (k ≤ n) × (n < length out.old) }
    ensures { out.new ≡ take k out.old ++ ((x ∷ take (n - k) (drop k out.old)) ++ drop (n + 1) out.old) }
{
    let mut carried = x;
    for i in k..n {
        let next = out[i];
        out[i] = carried;
        carried = next;
    }
    out[n] = carried;
}

// The drawn leaves in rising order, as many as `out` has room for.
pub fn draw_leaves(draw: &[u8], leaves: usize, out: &mut [usize])
    requires { (ranks_at + 8 * length out.old ≤ length draw.now) × (length out.old ≤ leaves) × (leaves ≤ most_leaves) }
    ensures { out.new ≡ drawn_into leaves [] (doubles (length out.old) (drop ranks_at draw.now)) }
{
    for j in 0..out.len() {
        let unused = (leaves - j) as u64;
        let rank = (word(draw, RANKS_AT + 8 * j) % unused) as usize;
        let k = place_of(&out[..j], rank);
        insert(out, j, k, rank + k);
    }
}
