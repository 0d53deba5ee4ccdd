// The fronts of buffers, and committing with them.
ghost use Rattle.std.specs.Prelude.{◌≡◌, ◌≤◌, length, take};

use super::sizes::Lengths;
use commitment::Shape;
use committer::commit;
use lent::Witness;
use refusal::Refusal;

// The first n items of a buffer, or all where it has fewer.
pub fn front<T>(buffer: &[T], n: usize) -> &[T]
    ensures few { (length result.now ≤ n) × (length result.now ≤ length buffer.now) }
    ensures items { result.now ≡ take n buffer.now }
{
    let end = n.min(buffer.len());
    &buffer[..end]
}

pub fn front_mut<T>(buffer: &mut [T], n: usize) -> &mut [T]
    ensures { result.now ≡ take n buffer.old }
{
    let end = n.min(buffer.len());
    &mut buffer[..end]
}

// The fronts that a call is lent.
pub fn lent_front<'a>(n: Lengths, all: &Witness<'a>) -> Witness<'a>
    ensures coefficients { result.coefficients.now ≡ take n.coefficients all.now.coefficients.now }
    ensures tails { result.tails.now ≡ take n.tails all.now.tails.now }
    ensures blinds { result.blinds.now ≡ take n.blinds all.now.blinds.now }
    ensures masks { result.masks.now ≡ take n.masks all.now.masks.now }
    ensures nonces { result.nonces.now ≡ take n.nonces all.now.nonces.now }
    ensures salt { result.salt.now ≡ take n.salt all.now.salt.now }
{
    Witness {
        coefficients: front(all.coefficients, n.coefficients),
        tails: front(all.tails, n.tails),
        blinds: front(all.blinds, n.blinds),
        masks: front(all.masks, n.masks),
        nonces: front(all.nonces, n.nonces),
        salt: front(all.salt, n.salt),
    }
}

pub fn commit_front(
    s: Shape,
    n: Lengths,
    all: &Witness<'_>,
    table: &mut [u32],
    tree: &mut [u8],
) -> Result<(), Refusal> {
    let witness = lent_front(n, all);
    commit(
        s,
        &witness,
        front_mut(table, n.table),
        front_mut(tree, n.tree),
    )
}
