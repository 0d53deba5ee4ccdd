// The entries for C as a static library: each calls the function of its name in crate smallwood, and has its clauses. A slice is a pointer and a length in elements.
#![tactic(auto)]

ghost use Rattle.std.specs.Prelude.{◌≡◌};
ghost use Rattle.scheme.specs.Sizes.{sizes_of};
ghost use Rattle.scheme.specs.Layers.{lent_of};
ghost use Rattle.scheme.specs.Commit.{committing};
ghost use Rattle.scheme.specs.Sizing.{sizing_c};
ghost use Rattle.scheme.specs.Work.{counting_c};
ghost use Rattle.scheme.specs.Open.{opening_c};
ghost use Rattle.scheme.specs.Check.{checking_c};
ghost use Rattle.scheme.specs.Interpolate.{interpolating};
ghost use Rattle.fiat_shamir.specs.Prove.{proving_c};
ghost use Rattle.fiat_shamir.specs.CheckProof.{checking_proof_c};

// Commits: fills the table and the tree, or returns the number of a refusal and leaves them as they were.
#[unsafe(no_mangle)]
pub extern "C" fn smallwood_commit(
    h: u32,
    mu: u32,
    nu: u32,
    w: u32,
    l: u32,
    eta: u32,
    beta: u32,
    coefficients: &[u32],
    tails: &[u32],
    blinds: &[u32],
    masks: &[u32],
    nonces: &[u8],
    salt: &[u8],
    table: &mut [u32],
    tree: &mut [u8],
) -> u32
    ensures { (result, table.new, tree.new) ≡ committing (sizes_of h mu nu w l eta beta) (lent_of coefficients.now tails.now blinds.now masks.now nonces.now salt.now) table.old tree.old }
{
    smallwood::smallwood_commit(
        h,
        mu,
        nu,
        w,
        l,
        eta,
        beta,
        coefficients,
        tails,
        blinds,
        masks,
        nonces,
        salt,
        table,
        tree,
    )
}

// Sizes: writes the exact length of the reply to a question, or returns the number of a refusal and leaves the length as it was.
#[unsafe(no_mangle)]
pub extern "C" fn smallwood_reply_length(question: &[u8], length: &mut u64) -> u32
    ensures { (result, length.new) ≡ sizing_c question.now length.old }
{
    smallwood::smallwood_reply_length(question, length)
}

// Counts: writes how many permutations the check of a reply to a question runs where it comes to hashing, or returns the number of a refusal and leaves the count as it was.
#[unsafe(no_mangle)]
pub extern "C" fn smallwood_permutations(question: &[u8], count: &mut u64) -> u32
    ensures { (result, count.new) ≡ counting_c question.now count.old }
{
    smallwood::smallwood_permutations(question, count)
}

// Opens: fills the reply and writes its length, or returns the number of a refusal and leaves both as they were.
#[unsafe(no_mangle)]
pub extern "C" fn smallwood_open(
    question: &[u8],
    coefficients: &[u32],
    tails: &[u32],
    blinds: &[u32],
    masks: &[u32],
    table: &[u32],
    nonces: &[u8],
    salt: &[u8],
    tree: &[u8],
    reply: &mut [u8],
    length: &mut u64,
) -> u32
    ensures { (result, length.new, reply.new) ≡ opening_c question.now (lent_of coefficients.now tails.now blinds.now masks.now nonces.now salt.now) table.now tree.now reply.old length.old }
{
    smallwood::smallwood_open(
        question,
        coefficients,
        tails,
        blinds,
        masks,
        table,
        nonces,
        salt,
        tree,
        reply,
        length,
    )
}

// Checks: writes the values, four bytes each, or returns the number of a refusal and leaves them as they were. Few values take a small array, since arrays are cleared.
#[unsafe(no_mangle)]
pub extern "C" fn smallwood_check(question: &[u8], reply: &[u8], values: &mut [u8]) -> u32
    ensures { (result, values.new) ≡ checking_c question.now reply.now values.old }
{
    smallwood::smallwood_check(question, reply, values)
}

// Proves: fills the front of the proof's buffer and writes the proof's length, or returns the number of a refusal and leaves both as they were.
#[unsafe(no_mangle)]
pub extern "C" fn smallwood_prove(
    question: &[u8],
    kappa: u32,
    limit: u32,
    coefficients: &[u32],
    tails: &[u32],
    blinds: &[u32],
    masks: &[u32],
    table: &[u32],
    nonces: &[u8],
    salt: &[u8],
    tree: &[u8],
    proof: &mut [u8],
    length: &mut u64,
) -> u32
    ensures { (result, length.new, proof.new) ≡ proving_c question.now kappa limit (lent_of coefficients.now tails.now blinds.now masks.now nonces.now salt.now) table.now tree.now proof.old length.old }
{
    smallwood::smallwood_prove(
        question,
        kappa,
        limit,
        coefficients,
        tails,
        blinds,
        masks,
        table,
        nonces,
        salt,
        tree,
        proof,
        length,
    )
}

// Checks a proof: writes the values, four bytes each, or returns the number of a refusal and leaves them as they were. Few values take a small array, since arrays are cleared.
#[unsafe(no_mangle)]
pub extern "C" fn smallwood_check_proof(
    question: &[u8],
    kappa: u32,
    proof: &[u8],
    values: &mut [u8],
) -> u32
    ensures { (result, values.new) ≡ checking_proof_c question.now kappa proof.now values.old }
{
    smallwood::smallwood_check_proof(question, kappa, proof, values)
}

// Interpolates over any points that differ: fills the slice with the coefficients, or returns the number of a refusal and leaves it as it was.
#[unsafe(no_mangle)]
pub extern "C" fn smallwood_interpolate(
    points: &[u32],
    values: &[u32],
    coefficients: &mut [u32],
) -> u32
    ensures { (result, coefficients.new) ≡ interpolating points.now values.now coefficients.old }
{
    smallwood::smallwood_interpolate(points, values, coefficients)
}
