// The chains of two leaves, those of the second behind those of the first: what the messages of each begin with.
ghost use Rattle.std.specs.Prelude.{◌≡◌, ◌+◌, ◌<◌, ◌≤◌, ◌^◌, ◌++◌};
ghost use Rattle.sp_ots.specs.Strings.{u8str};
ghost use Rattle.sp_ots.specs.TwoLeaves.{front_in};

use crate::hashes::element_message;

/// A leaf of a tree.
#[derive(Clone, Copy)]
pub(crate) struct Leaf {
    /// The id of the tree.
    pub(crate) id: [u8; 16],
    /// The number of the leaf in it.
    pub(crate) q: u32,
}

/// Two leaves, whose chains stand one after another.
#[derive(Clone, Copy)]
pub(crate) struct TwoLeaves {
    pub(crate) first: Leaf,
    pub(crate) second: Leaf,
    /// How many chains of the first leaf there are. Behind them stand those of the second one.
    pub(crate) split: usize,
}

impl TwoLeaves {
    /// The message whose hash is the next element of the chain in a place, from the one at step `step`.
    pub(crate) fn message(&self, place: usize, step: u8, element: &[u8; 32]) -> [u8; 55]
        requires { place < 2 ^ 16 }
        ensures { result ≡ front_in self.now place ++ u8str step ++ element.now }
    {
        if place < self.split {
            element_message(&self.first.id, self.first.q, place as u16, step, element)
        } else {
            let chain = place - self.split;
            element_message(&self.second.id, self.second.q, chain as u16, step, element)
        }
    }
}
