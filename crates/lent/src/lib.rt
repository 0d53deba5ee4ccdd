// What a committer or an opener is lent, and the tests of its lengths and elements.
#![tactic(auto)]

ghost use Rattle.std.specs.Prelude.{◌≡◌};
ghost use Rattle.lists.specs.Tests.{every};
ghost use Rattle.scheme.specs.Sizes.{SizesInOrder};
ghost use Rattle.scheme.specs.Commit.{lent_ok, filled_ok, lent_elements};
ghost use Rattle.commitment.specs.Shape.{sizes_in};
ghost use Rattle.lent.specs.Witnessed.{witnessed};

use codec::{both, elements_ok};
use commitment::{
    SALT_LENGTH, Shape, blind_count, coefficient_count, leaf_count, record_values, row_count,
    row_width,
};

// What a committer or an opener is lent to read, `Lent` of the definitions: the polynomials' coefficients, and all that hides them.
#[derive(Clone, Copy)]
pub struct Witness<'a> {
    pub coefficients: &'a [u32],
    pub tails: &'a [u32],
    pub blinds: &'a [u32],
    pub masks: &'a [u32],
    pub nonces: &'a [u8],
    pub salt: &'a [u8],
}

// Is each slice that is lent to be read of its length?
pub fn lent_ok(s: Shape, witness: &Witness<'_>) -> bool
    requires { SizesInOrder (sizes_in s) }
    ensures { result ≡ lent_ok (sizes_in s) (witnessed witness.now) }
{
    let w = s.w as usize;
    let c = witness.coefficients.len() == w * coefficient_count(s);
    let t = witness.tails.len() == row_count(s) * s.l as usize;
    let b = witness.blinds.len() == w * blind_count(s);
    let m = witness.masks.len() == s.eta as usize * row_width(s);
    let o = witness.nonces.len() == 32 * leaf_count(s.h);
    let z = witness.salt.len() == SALT_LENGTH;
    both(c, both(t, both(b, both(m, both(o, z)))))
}

// Are the table and the tree of their lengths?
pub fn filled_ok(s: Shape, table: &[u32], tree: &[u8]) -> bool
    requires { SizesInOrder (sizes_in s) }
    ensures { result ≡ filled_ok (sizes_in s) table.now tree.now }
{
    let n = leaf_count(s.h);
    both(
        table.len() == n * record_values(s),
        tree.len() == 32 * (2 * n - 1),
    )
}

// Is each word that is lent to be read below q?
pub fn lent_elements(witness: &Witness<'_>) -> bool
    ensures { result ≡ every (lent_elements (witnessed witness.now)) }
{
    let c = elements_ok(witness.coefficients);
    let t = elements_ok(witness.tails);
    let b = elements_ok(witness.blinds);
    let m = elements_ok(witness.masks);
    both(c, both(t, both(b, m)))
}
