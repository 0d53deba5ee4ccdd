// The question of a proof without a conversation: header, root, salt, points; and its tests, which proving and checking a proof make first.
#![tactic(auto)]

ghost use Rattle.std.specs.Prelude.{◌≡◌, ◌≤◌, IfOk};
ghost use Rattle.scheme.specs.Sizes.{most_points};
ghost use Rattle.fiat_shamir.specs.Offline.{offline_length, offline_verdict};
ghost use Rattle.refusal.specs.Numbers.{number_of};
ghost use Rattle.question.specs.Asked.{Heads};
ghost use Rattle.offline_question.specs.Asked.{AsksOffline};

use codec::elements_in;
use commitment::{Shape, challenges_at};
use question::{Heading, header};
use refusal::Refusal;

// The most zero bits that may be asked of a draw.
const MOST_BITS: u32 = 16;

// A well-formed question of a proof: its bytes, what its header asks for, and kappa, how many bits of a draw must be zero.
#[derive(Clone, Copy)]
pub struct OfflineQuery<'a> {
    pub bytes: &'a [u8],
    pub shape: Shape,
    pub m: u32,
    pub kappa: u32,
    pub ghost asks: { AsksOffline bytes.now kappa shape m },
}

// How long the question is; its points stand where a conversation's question has its challenges.
fn offline_length(m: usize) -> usize
    requires { m ≤ most_points }
    ensures { result ≡ offline_length m }
{
    challenges_at() + 4 * m
}

// The tests after the header's.
fn offline_body(question: &[u8], kappa: u32, s: Shape, m: u32) -> Result<(), Refusal>
    requires { Heads question.now s m }
    ensures { number_of result ≡ offline_verdict question.now kappa }
{
    if MOST_BITS < kappa {
        return Err(Refusal::Sizes);
    }
    let points = m as usize;
    if question.len() != offline_length(points) {
        return Err(Refusal::QuestionLength);
    }
    if !elements_in(question, challenges_at(), points) {
        return Err(Refusal::Element);
    }
    Ok(())
}

// The question's tests, with those of kappa among them.
pub fn ask_offline(question: &[u8], kappa: u32) -> Result<OfflineQuery<'_>, Refusal>
    ensures verdict { number_of result ≡ offline_verdict question.now kappa }
    ensures query { IfOk result (λ q. (q.bytes.now ≡ question.now) × (q.kappa ≡ kappa)) }
{
    let Heading { shape, m } = header(question)?;
    offline_body(question, kappa, shape, m)?;
    Ok(OfflineQuery {
        bytes: question,
        shape,
        m,
        kappa,
    })
}
