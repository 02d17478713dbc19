// What has been read so far of a model.
#![tactic(auto)]

ghost use Rattle.model_judge.specs.Kept.{Keeps};

use model_runs::MovesRead;
use rules::Sizes;

// Of the blocks so far: how many records, the kind of the last, how many of its equations are still due, and how many
// equations there were in all.
#[derive(Clone, Copy, Debug, PartialEq, Eq, Default)]
pub struct BlocksRead {
    pub count: u32,
    pub kind: u32,
    pub due: u32,
    pub equations: u32,
}

// What has been read so far, in numbers, inside the limits. Labels have passed the states below `labels`. `live` and a block's
// kind are numbers, 1 or 0, as in a session.
#[derive(Clone, Copy, Debug, PartialEq, Eq)]
pub struct Progress {
    pub sizes: Sizes,
    pub live: u8,
    pub labels: u32,
    pub blocks: BlocksRead,
    pub moves: MovesRead,
    pub ghost kept: { Keeps sizes live labels blocks moves },
}
