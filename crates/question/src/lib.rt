// A question: its tests, which every entry makes first, and what it holds.
#![tactic(auto)]

ghost use Rattle.std.specs.Prelude.{◌≡◌, ◌&&◌, ◌+◌, ◌*◌, ◌≤◌, IfOk, ltb, length, take, drop};
ghost use Rattle.lists.specs.Bytes.{halves};
ghost use Rattle.lists.specs.Rising.{rising};
ghost use Rattle.lists.specs.Tests.{all, same, verdict_of};
ghost use Rattle.scheme.specs.Question.{mark, header_length, header_tests, question_verdict, read_question};
ghost use Rattle.refusal.specs.Numbers.{number_of};
ghost use Rattle.question.specs.Asked.{header_shape, Heads, Asks};

use codec::{both, elements_in, half, in_range, read_halves, read_words, same_bytes, wide};
use commitment::{
    Shape, challenges_at, indices_at, leaf_count, points_at, question_length, root_at, sizes_ok,
};
use refusal::Refusal;

// "SWQ" and the version, 3, in two bytes.
const MARK: [u8; 5] = [0x53, 0x57, 0x51, 3, 0];

// What a header asks for: sizes, and m, the number of evaluation points.
#[derive(Clone, Copy)]
pub struct Heading {
    pub shape: Shape,
    pub m: u32,
}

// A well-formed question: its bytes, and what its header asks for.
#[derive(Clone, Copy)]
pub struct Query<'a> {
    pub bytes: &'a [u8],
    pub shape: Shape,
    pub m: u32,
    pub ghost asks: { Asks bytes.now shape m },
}

// Does a header begin with the mark?
fn marked(b: &[u8]) -> bool
    requires { header_length ≤ length b.now }
    ensures { result ≡ same (take 5 b.now) mark }
{
    let mark = MARK;
    same_bytes(&b[0..5], &mark)
}

// The sizes in a header.
fn header_shape(b: &[u8]) -> Shape
    requires { header_length ≤ length b.now }
    ensures { result ≡ header_shape b.now }
{
    let h = wide(b[5]);
    let mu = wide(b[6]);
    let nu = half(b, 7) as u32;
    let w = half(b, 9) as u32;
    let l = wide(b[11]);
    let eta = wide(b[12]);
    let beta = wide(b[14]);
    Shape {
        h: h,
        mu: mu,
        nu: nu,
        w: w,
        l: l,
        eta: eta,
        beta: beta,
    }
}

// The header's tests.
pub fn header(b: &[u8]) -> Result<Heading, Refusal>
    ensures verdict { number_of result ≡ verdict_of (header_tests b.now) }
    ensures header { IfOk result (λ h. Heads b.now h.shape h.m) }
{
    if b.len() < root_at() {
        return Err(Refusal::QuestionLength);
    }
    if !marked(b) {
        return Err(Refusal::Mark);
    }
    let shape = header_shape(b);
    let m = wide(b[13]);
    let sizes = sizes_ok(shape);
    if !both(sizes, in_range(1, m, 8)) {
        return Err(Refusal::Sizes);
    }
    Ok(Heading { shape, m })
}

// Do the n numbers of two bytes from `at` on rise strictly, and is each below the number of leaves? `low` is the least that may come next.
fn indices_ok(b: &[u8], at: usize, n: usize, leaves: usize) -> bool
    requires { at + 2 * n ≤ length b.now }
    ensures { result ≡ (rising (halves n (drop at b.now)) && all (λ i. ltb i leaves) (halves n (drop at b.now))) }
{
    let mut ok = true;
    let mut low = 0;
    for i in 0..n {
        let x = half(b, at + 2 * i);
        ok = both(ok, both(low <= x, x < leaves));
        low = x + 1;
    }
    ok
}

// The tests after the header's. Challenges and points stand one after the other, and are tested as one.
fn body(question: &[u8], s: Shape, m: u32) -> Result<(), Refusal>
    requires { Heads question.now s m }
    ensures { number_of result ≡ question_verdict question.now }
{
    let points = m as usize;
    if question.len() != question_length(s, points) {
        return Err(Refusal::QuestionLength);
    }
    let elements = s.eta as usize + points;
    if !elements_in(question, challenges_at(), elements) {
        return Err(Refusal::Element);
    }
    let leaves = leaf_count(s.h);
    if !indices_ok(question, indices_at(s, points), s.l as usize, leaves) {
        return Err(Refusal::Indices);
    }
    Ok(())
}

// The question's tests, that every entry makes first.
pub fn ask(question: &[u8]) -> Result<Query<'_>, Refusal>
    ensures verdict { number_of result ≡ question_verdict question.now }
    ensures query { IfOk result (λ q. q.bytes.now ≡ question.now) }
{
    let Heading { shape, m } = header(question)?;
    body(question, shape, m)?;
    Ok(Query {
        bytes: question,
        shape,
        m,
    })
}

// ---- what a well-formed question holds

// As many challenges, points and indices as a question can have.
pub const MOST_CHALLENGES: usize = 4;

pub const MOST_POINTS: usize = 8;

pub const MOST_INDICES: usize = 64;

// Each stands in front of the array.
impl Query<'_> {
    pub fn challenges(&self) -> [u32; MOST_CHALLENGES]
        ensures { take self.now.shape.eta result ≡ (read_question self.now.bytes.now).challenges }
    {
        let mut challenges = [0u32; MOST_CHALLENGES];
        let count = self.shape.eta as usize;
        read_words(self.bytes, challenges_at(), count, &mut challenges);
        challenges
    }

    pub fn points(&self) -> [u32; MOST_POINTS]
        ensures { take self.now.m result ≡ (read_question self.now.bytes.now).evaluation_points }
    {
        let mut points = [0u32; MOST_POINTS];
        let at = points_at(self.shape);
        read_words(self.bytes, at, self.m as usize, &mut points);
        points
    }

    pub fn indices(&self) -> [usize; MOST_INDICES]
        ensures { take self.now.shape.l result ≡ (read_question self.now.bytes.now).indices }
    {
        let mut indices = [0usize; MOST_INDICES];
        let at = indices_at(self.shape, self.m as usize);
        read_halves(self.bytes, at, self.shape.l as usize, &mut indices);
        indices
    }
}
