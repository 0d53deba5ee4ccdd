// Calls about a commitment, and what can be wrong with them.
use super::inputs::{Salt, Slice};
use super::questions::Asked;
use super::sizes::{Lengths, lengths_of, shorter};
use commitment::Shape;

// The question can be about other sizes than the commitment's. The lengths are those that the call is lent, `room` that of the reply or the proof; the salt is
// the commitment's. A byte of the question, the tree or the lent salt is raised by 1, the last word of one slice is made q.
#[derive(Clone, Copy)]
pub struct Call {
    pub sizes: Shape,
    pub asked_sizes: Shape,
    pub asked: Asked,
    pub salt: Salt,
    pub lengths: Lengths,
    pub room: usize,
    pub question_at: Option<usize>,
    pub tree_at: Option<usize>,
    pub lent_salt_at: Option<usize>,
    pub spoiled: Option<Slice>,
}

// With nothing wrong: the lengths are those of a conversation.
pub fn sound_call(sizes: Shape, asked: Asked, room: usize) -> Call {
    Call {
        sizes,
        asked_sizes: sizes,
        asked,
        salt: asked.salt,
        lengths: lengths_of(sizes, asked.m),
        room,
        question_at: None,
        tree_at: None,
        lent_salt_at: None,
        spoiled: None,
    }
}

// One thing that is wrong with a call.
#[derive(Clone, Copy)]
pub enum Fault {
    // Of the question.
    Version(u16),
    AskedSizes(Shape),
    Challenges([u32; 4]),
    Points([u32; 8]),
    Indices(usize, usize),
    QuestionLength(usize),
    QuestionRaised(usize),
    // Of what is lent.
    Shorter(Slice),
    BlindCount(usize),
    SaltLength(usize),
    Room(usize),
    Spoiled(Slice),
    SaltRaised(usize),
    TreeRaised(usize),
}

impl Call {
    pub fn with(self, fault: Fault) -> Call {
        let mut call = self;
        match fault {
            Fault::Version(version) => call.asked.version = version,
            Fault::AskedSizes(sizes) => call.asked_sizes = sizes,
            Fault::Challenges(challenges) => call.asked.challenges = challenges,
            Fault::Points(points) => call.asked.points = points,
            Fault::Indices(first, step) => {
                call.asked.first = first;
                call.asked.step = step;
            }
            Fault::QuestionLength(length) => call.lengths.question = length,
            Fault::QuestionRaised(at) => call.question_at = Some(at),
            Fault::Shorter(slice) => call.lengths = shorter(call.lengths, slice),
            Fault::BlindCount(count) => call.lengths.blinds = count,
            Fault::SaltLength(length) => call.lengths.salt = length,
            Fault::Room(length) => call.room = length,
            Fault::Spoiled(slice) => call.spoiled = Some(slice),
            Fault::SaltRaised(at) => call.lent_salt_at = Some(at),
            Fault::TreeRaised(at) => call.tree_at = Some(at),
        }
        call
    }
}
