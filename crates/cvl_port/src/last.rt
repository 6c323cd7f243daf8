ghost use Rattle.std.specs.Prelude.{◌≡◌, length, slice_get};
ghost use Rattle.std.specs.Option.{option_copied};
ghost use Rattle.cvl_port.specs.Replies.{replies_of};

use cvl_text::Reply;

/// The replies that a port took last: to a call, or to the calls of a block.
#[derive(Debug, Drop)]
pub enum Last {
    /// Nothing was answered yet.
    Nothing,
    /// To a call.
    One(Reply),
    /// To the calls of a block, in order.
    Many(Vec<Reply>),
}

impl Last {
    /// How many they are.
    pub fn count(&self) -> usize
        ensures { result ≡ length (replies_of self.now) }
    {
        match self {
            Last::Nothing => 0,
            Last::One(_) => 1,
            Last::Many(replies) => replies.len(),
        }
    }

    /// The reply at a place.
    pub fn reply(&self, place: usize) -> Option<&Reply>
        ensures { option_copied result ≡ slice_get (replies_of self.now) place }
    {
        match self {
            Last::Nothing => None,
            Last::One(reply) => (place == 0).then_some(reply),
            Last::Many(replies) => replies.get(place),
        }
    }
}
