// A call of the prover: inputs by the rules, and something wrong with them where a test is meant.
use commitment::{Shape, challenges_at};
use lent::Witness;
use prover::prove;
use refusal::Refusal;
use runs::calls::{front, front_mut, lent_front};
use runs::faults::{Call, Fault, sound_call};
use runs::inputs::{SALT_ROOM, SMALL_ROOM, Salt, Slice, filled, filled_salt};
use runs::questions::{filled_question, put_offline_question, put_question, with_salt};
use runs::sizes::{Lengths, lengths_of, product};
use runs::small::{commit_small, lent_words, raise};

// Above the least counter of every run here.
const LIMIT: u32 = 5000;

// What is asked: the question of a proof, or that of a conversation.
#[derive(Clone, Copy, PartialEq, Eq)]
pub enum Asking {
    Proof,
    Conversation,
}

#[derive(Clone, Copy)]
pub struct Attempt {
    pub call: Call,
    pub asking: Asking,
    pub kappa: u32,
    pub limit: u32,
}

// The counter, and a reply with as many nodes as l paths have.
fn proof_bound(s: Shape, m: u32) -> usize {
    let l = s.l as usize;
    let width = product(s.w as usize, s.nu as usize) + l;
    let answers = product(s.eta as usize + m as usize, width);
    let record = 4 * (s.mu as usize + s.beta as usize + s.eta as usize) + 32;
    4 + 4 * answers + product(l, record) + 32 * product(l, s.h as usize)
}

// With nothing wrong.
pub fn sound(s: Shape, m: u32, kappa: u32) -> Attempt {
    let call = sound_call(s, filled_question(m, 1, 2), proof_bound(s, m));
    let length = challenges_at() + 4 * m as usize;
    Attempt {
        call: call.with(Fault::QuestionLength(length)),
        asking: Asking::Proof,
        kappa,
        limit: LIMIT,
    }
}

// About a commitment with another salt.
pub fn about_salt(a: Attempt, salt: Salt) -> Attempt {
    let asked = with_salt(a.call.asked, salt);
    let call = Call {
        asked,
        salt,
        ..a.call
    };
    Attempt { call, ..a }
}

impl Attempt {
    pub fn with(self, fault: Fault) -> Attempt {
        Attempt {
            call: self.call.with(fault),
            ..self
        }
    }

    pub fn with_kappa(self, kappa: u32) -> Attempt {
        Attempt { kappa, ..self }
    }

    pub fn with_limit(self, limit: u32) -> Attempt {
        Attempt { limit, ..self }
    }

    // Asks what a conversation asks.
    pub fn with_conversation(self) -> Attempt {
        let length = sound_lengths(self.call).question;
        Attempt {
            asking: Asking::Conversation,
            ..self.with(Fault::QuestionLength(length))
        }
    }

    // The second point is another word.
    pub fn with_point(self, point: u32) -> Attempt {
        let mut points = self.call.asked.points;
        points[1] = point;
        self.with(Fault::Points(points))
    }
}

// ---- calls

// Those of a conversation at the commitment's sizes.
fn sound_lengths(c: Call) -> Lengths {
    lengths_of(c.sizes, c.asked.m)
}

pub fn commit_sound(c: Call, table: &mut [u32], tree: &mut [u8]) {
    let _ = commit_small(c.sizes, sound_lengths(c), c.salt, None, table, tree);
}

pub fn ask(a: Attempt, tree: &[u8], question: &mut [u8]) {
    let c = a.call;
    let committed = front(tree, sound_lengths(c).tree);
    match a.asking {
        Asking::Proof => put_offline_question(c.asked_sizes, c.asked, committed, question),
        Asking::Conversation => put_question(c.asked_sizes, c.asked, committed, question),
    }
    raise(question, c.question_at);
}

pub fn prove_asked(
    a: Attempt,
    question: &[u8],
    table: &[u32],
    tree: &[u8],
    proof: &mut [u8],
) -> Result<usize, Refusal> {
    let c = a.call;
    let n = c.lengths;
    let coefficients = lent_words(Slice::Coefficients, n.coefficients, c.spoiled);
    let tails = lent_words(Slice::Tails, n.tails, c.spoiled);
    let blinds = lent_words(Slice::Blinds, n.blinds, c.spoiled);
    let masks = lent_words(Slice::Masks, n.masks, c.spoiled);
    let nonces = filled::<u8, SMALL_ROOM>(Slice::Nonces);
    let mut salt = filled_salt::<SALT_ROOM>(c.salt);
    raise(&mut salt, c.lent_salt_at);
    let all = Witness {
        coefficients: &coefficients,
        tails: &tails,
        blinds: &blinds,
        masks: &masks,
        nonces: &nonces,
        salt: &salt,
    };
    let witness = lent_front(n, &all);
    prove(
        front(question, n.question),
        a.kappa,
        a.limit,
        &witness,
        front(table, n.table),
        front(tree, n.tree),
        front_mut(proof, c.room),
    )
}

// The length of the proof, 0 with a refusal.
pub fn length_of(answer: Result<usize, Refusal>) -> usize {
    answer.unwrap_or(0)
}
