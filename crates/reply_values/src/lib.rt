// The values that an accepted reply gives: at each point those of the polynomials, from its column values.
#![tactic(auto)]

ghost use Rattle.std.specs.Prelude.{◌≡◌, ◌+◌, ◌*◌, ◌≤◌, length, drop};
ghost use Rattle.lists.specs.Bytes.{words};
ghost use Rattle.lists.specs.Rows.{rows_of};
ghost use Rattle.scheme.specs.Question.{read_question};
ghost use Rattle.scheme.specs.Reply.{read_reply, records_at};
ghost use Rattle.scheme.specs.Check.{check_values};
ghost use Rattle.commitment.specs.Shape.{sizes_in};
ghost use Rattle.reply_values.specs.Values.{point_values, values_at};

use codec::read_words;
use commitment::{Shape, answers_at, row_width};
use field::{Element, evaluate, power};
use question::Query;

const MOST_WIDTH: usize = 320; // words of an answer

// The values of the polynomials at one point, from its column values.
fn point_values(nu: usize, base: Element, answer: &[u32], out: &mut [u32])
    requires { nu * length out.old ≤ length answer.now }
    ensures { out.new ≡ point_values nu base.0 answer.now (length out.old) }
{
    for (i, value) in out.iter_mut().enumerate() {
        let from = nu * i;
        let to = from + nu;
        *value = evaluate(&answer[from..to], base).0;
    }
}

// The values of the polynomials, point by point; the answers begin at byte `at` of the reply. `answer` is room for one.
fn all_values(
    s: Shape,
    at: usize,
    points: &[u32],
    reply: &[u8],
    answer: &mut [u32],
    values: &mut [u32],
)
    requires { (s.nu * s.w ≤ length answer.old) × (length values.old ≡ s.w * length points.now) × (at + 4 * length answer.old * length points.now ≤ length reply.now) }
    ensures { values.new ≡ rows_of (values_at s.mu s.nu s.w (length answer.old) points.now (words (length answer.old * length points.now) (drop at reply.now))) (length points.now) }
{
    let w = s.w as usize;
    let size = 4 * answer.len();
    for (p, point) in points.iter().enumerate() {
        let first = w * p;
        let last = first + w;
        let base = power(Element(*point), s.mu as usize);
        read_words(reply, at + size * p, answer.len(), answer);
        point_values(s.nu as usize, base, answer, &mut values[first..last]);
    }
}

// The values that an accepted reply to a well-formed question gives.
pub fn fill_values(query: &Query<'_>, reply: &[u8], values: &mut [u32])
    requires { (records_at (sizes_in query.now.shape) query.now.m ≤ length reply.now) × (length values.old ≡ query.now.shape.w * query.now.m) }
    ensures { values.new ≡ check_values (read_question query.now.bytes.now) (read_reply (read_question query.now.bytes.now) reply.now) }
{
    let s = query.shape;
    let width = row_width(s);
    let count = query.m as usize;
    let points = query.points();
    let mut answer = [0u32; MOST_WIDTH];
    all_values(
        s,
        answers_at(s),
        &points[..count],
        reply,
        &mut answer[..width],
        values,
    );
}
