// The tests of a reply, in their order: 7, 3, 8, 9, 10; and the permutations run.
#![tactic(auto)]

ghost use Rattle.std.specs.Prelude.{◌≡◌, ◌*◌, ◌≤◌, Err, length};
ghost use Rattle.lists.specs.Tests.{verdict_of};
ghost use Rattle.scheme.specs.Sizes.{width};
ghost use Rattle.scheme.specs.Reply.{reply_length};
ghost use Rattle.scheme.specs.Check.{reply_tests};
ghost use Rattle.scheme.specs.Work.{work_by};
ghost use Rattle.commitment.specs.Shape.{sizes_in};
ghost use Rattle.refusal.specs.Numbers.{number_of};
ghost use Rattle.reply_tests.specs.Posed.{Read, later_tests};
ghost use Rattle.reply_tests.specs.Asked.{asked};

mod task; // task.rt: what a reply is tested against

use batching_test::batching_ok;
use codec::{read_words, same_bytes};
use commitment::{
    answers_at, leaf_count, record_length, record_values, records_at, row_count, row_width,
};
use evaluation_test::evaluation_ok;
use planner::length_for;
use refusal::Refusal;
use reply_elements::elements_read;
use reply_root::reply_root;
pub use task::Task;

// What the tests say, and how many permutations were run before.
#[derive(Clone, Copy)]
pub struct Checked {
    pub outcome: Result<(), Refusal>,
    pub permutations: usize,
}

pub fn refused(refusal: Refusal, permutations: usize) -> Checked
    ensures { (result.outcome ≡ Err refusal) × (result.permutations ≡ permutations) }
{
    Checked {
        outcome: Err(refusal),
        permutations,
    }
}

// The tests after that of the reply's length: 3, 8, 9, 10. All hashing stands between 3 and 8. The answers come back weighed.
fn words_verdict(task: &Task<'_>, reply: &[u8], batching: &[u32], answers: &mut [u32]) -> Checked
    requires { Read (asked task.now) reply.now batching.now answers.old }
    ensures verdict_value { number_of result.outcome ≡ verdict_of (later_tests (asked task.now) reply.now) }
    ensures permutations_value { result.permutations ≡ work_by (asked task.now) (number_of result.outcome) }
{
    let s = task.shape;
    let indices = task.indices;
    let at = records_at(s, task.points.len());
    let size = record_length(s);
    let n = record_values(s);
    if !elements_read(batching, answers, at, size, n, indices.len(), reply) {
        return refused(Refusal::Element, 0);
    }
    let found = reply_root(task.salt, s.h as usize, at, size, indices, reply);
    let digest = found.digest;
    let ran = found.permutations;
    if !same_bytes(&digest, task.root) {
        return refused(Refusal::Root, ran);
    }
    let width = row_width(s);
    let rows = row_count(s);
    if !batching_ok(
        width,
        rows,
        task.challenges,
        batching,
        indices,
        at,
        size,
        reply,
    ) {
        return refused(Refusal::Batching, ran);
    }
    let leaves = leaf_count(s.h);
    if !evaluation_ok(
        leaves,
        width,
        rows,
        task.points,
        answers,
        indices,
        at,
        size,
        reply,
    ) {
        return refused(Refusal::Evaluation, ran);
    }
    Checked {
        outcome: Ok(()),
        permutations: ran,
    }
}

// The same, with room for so many words of batching answers and of evaluation answers.
fn read_verdict<const BATCHING: usize, const ANSWERS: usize>(
    task: &Task<'_>,
    reply: &[u8],
) -> Checked
    requires { (length reply.now ≡ reply_length (asked task.now)) × (width (sizes_in task.now.shape) * length task.now.challenges.now ≤ BATCHING) × (BATCHING ≤ 1280) × (width (sizes_in task.now.shape) * length task.now.points.now ≤ ANSWERS) × (ANSWERS ≤ 2560) }
    ensures verdict_value { number_of result.outcome ≡ verdict_of (later_tests (asked task.now) reply.now) }
    ensures permutations_value { result.permutations ≡ work_by (asked task.now) (number_of result.outcome) }
{
    let mut batching = [0u32; BATCHING];
    let mut answers = [0u32; ANSWERS];
    let width = row_width(task.shape);
    let b = width * task.challenges.len();
    read_words(reply, 0, b, &mut batching);
    let a = width * task.points.len();
    read_words(reply, answers_at(task.shape), a, &mut answers);
    words_verdict(task, reply, &batching[..b], &mut answers[..a])
}

// The reply's tests: 7, 3, 8, 9, 10. Arrays are cleared, so answers of up to 32 words have small ones. There are at most 4 batching answers and 8 evaluation answers.
pub fn reply_verdict(task: &Task<'_>, reply: &[u8]) -> Checked
    ensures verdict_value { number_of result.outcome ≡ verdict_of (reply_tests (asked task.now) reply.now) }
    ensures permutations_value { result.permutations ≡ work_by (asked task.now) (number_of result.outcome) }
{
    if reply.len() != length_for(task.shape, task.points.len(), task.indices) {
        return refused(Refusal::ReplyLength, 0);
    }
    if row_width(task.shape) <= 32 {
        read_verdict::<128, 256>(task, reply)
    } else {
        read_verdict::<1280, 2560>(task, reply)
    }
}
