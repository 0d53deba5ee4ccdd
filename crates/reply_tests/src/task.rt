// What a reply is tested against.

ghost use Rattle.commitment.specs.Shape.{sizes_in};
ghost use Rattle.reply_tests.specs.Posed.{Posed, Posed-prop};

use commitment::Shape;

// A question as its tests leave it: its sizes, root and salt, and its challenges, points and indices in slices.
#[derive(Clone, Copy)]
pub struct Task<'a> {
    pub shape: Shape,
    pub root: &'a [u8],
    pub salt: &'a [u8],
    pub challenges: &'a [u32],
    pub points: &'a [u32],
    pub indices: &'a [usize],
    pub ghost well_posed: { Posed (sizes_in shape) salt.now challenges.now points.now indices.now } by { Posed-prop (sizes_in shape) salt.now challenges.now points.now indices.now },
}
