// The check of a reply.
#![tactic(auto)]

ghost use Rattle.std.specs.Prelude.{◌≡◌};
ghost use Rattle.lists.specs.Tests.{verdict_of};
ghost use Rattle.scheme.specs.Question.{read_question};
ghost use Rattle.scheme.specs.Check.{reply_tests};
ghost use Rattle.scheme.specs.Work.{work_by, checking_counted};
ghost use Rattle.refusal.specs.Numbers.{number_of};
ghost use Rattle.checker.specs.Answered.{checking_reply};

use commitment::{challenges_at, root_at, salt_at};
use question::{Query, ask};
use refusal::Refusal;
use reply_tests::{Checked, Task, refused, reply_verdict};
use reply_values::fill_values;

// The reply's tests, with the challenges, points, indices, root and salt of the question.
fn asked_verdict(query: &Query<'_>, reply: &[u8]) -> Checked
    ensures verdict_value { number_of result.outcome ≡ verdict_of (reply_tests (read_question query.now.bytes.now) reply.now) }
    ensures permutations_value { result.permutations ≡ work_by (read_question query.now.bytes.now) (number_of result.outcome) }
{
    let eta = query.shape.eta as usize;
    let count = query.m as usize;
    let l = query.shape.l as usize;
    let challenges = query.challenges();
    let points = query.points();
    let indices = query.indices();
    let root = root_at();
    let salt = salt_at();
    let end = challenges_at();
    let task = Task {
        shape: query.shape,
        root: &query.bytes[root..salt],
        salt: &query.bytes[salt..end],
        challenges: &challenges[..eta],
        points: &points[..count],
        indices: &indices[..l],
    };
    reply_verdict(&task, reply)
}

// The value buffer's test, 2, and the reply's; the values once none of them holds.
pub fn check_reply(query: &Query<'_>, reply: &[u8], values: &mut [u32]) -> Checked
    ensures values_after { (number_of result.outcome, values.new) ≡ checking_reply (read_question query.now.bytes.now) reply.now values.old }
    ensures permutations_value { result.permutations ≡ work_by (read_question query.now.bytes.now) (number_of result.outcome) }
{
    if values.len() != query.shape.w as usize * query.m as usize {
        return refused(Refusal::Length, 0);
    }
    let answer = asked_verdict(query, reply);
    if answer.outcome.is_ok() {
        fill_values(query, reply, values);
    }
    answer
}

// The check: what its tests say, and how many permutations were run; the values are written only where no test holds.
pub fn check(question: &[u8], reply: &[u8], values: &mut [u32]) -> Checked
    ensures { (number_of result.outcome, result.permutations, values.new) ≡ checking_counted question.now reply.now values.old }
{
    match ask(question) {
        Ok(query) => check_reply(&query, reply, values),
        Err(refusal) => refused(refusal, 0),
    }
}
