//! The chains in which a search finds the product states that it has reached.

ghost use Rattle.std.specs.Prelude.{◌<◌, ◌^◌};

/// How many chains all nodes of a graph have together, but for one of each: a table of so many takes 128 MiB.
const MOST_IN_ALL: u32 = 1 << 25;

/// How many chains each node has. Its states are shared out among them.
#[derive(Clone, Copy)]
pub(crate) struct Chains {
    pub count: u32,
    ghost some: { 0 < count },
    ghost few: { count < 2 ^ 29 },
}

impl Chains {
    ghost use Rattle.std.specs.Prelude.{◌≡◌};
    ghost use Rattle.product_search.specs.inside.Waiting.{chain_of};

    /// One up to 63 states of an automaton, so that most searches look through one short chain; then one for each eight states
    /// or more, but fewer in a graph with so many nodes that the table would be large. A search that comes to few nodes, but to
    /// each in many states, has four to eight from 16 states on: there the size of the table costs less than longer chains do.
    pub fn of(nodes: u32, states: u32, meets_few: bool) -> Chains {
        let wanted = if states >= 64 {
            states / 8
        } else if meets_few && states >= 16 {
            (states / 4).min(8)
        } else {
            1
        };
        let room = MOST_IN_ALL / nodes.max(1);
        Chains {
            count: power_within(wanted.min(room)),
        }
    }

    /// The place of the chain of a product state in a table. Related states are often a multiple of 4 apart: a quarter more of
    /// each sends them to other chains.
    #[inline(always)]
    pub fn place(self, node: u32, state: u32) -> usize
        ensures { result ≡ chain_of self.count node state }
    {
        if self.count == 1 {
            return node as usize;
        }
        let spread = state as usize + state as usize / 4;
        node as usize * self.count as usize + (spread & (self.count as usize - 1))
    }
}

/// The greatest power of two that is no more than a number; 1 for 0.
fn power_within(most: u32) -> u32
    requires { most < 2 ^ 29 }
    ensures some { 0 < result }
    ensures few { result < 2 ^ 29 }
{
    let mut power = 1;
    'double: while power <= most / 2 {
        power *= 2;
    }
    power
}
