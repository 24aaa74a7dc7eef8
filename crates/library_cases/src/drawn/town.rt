//! A graph and an automaton that are drawn from a number, and what is asked of a search over them.

ghost use Rattle.std.specs.Prelude.{◌≡◌, ◌<◌, ◌≤◌, ◌^◌};
ghost use Rattle.library_cases.specs.Towns.{drawn, letter_drawn, town, rules, town_lawful, rules_lawful};

use search_laws::{Graph, GraphArc, Labels, Move, Steady, Time};

/// A number below `below` that looks random.
fn draw(seed: u32, v: u32, i: u32, salt: u32, below: u32) -> u32
    requires { 0 < below }
    ensures { result ≡ drawn seed v i salt below }
{
    let sum = u64::from(seed) * 271 + u64::from(v) * 97 + u64::from(i) * 31 + u64::from(salt) * 7;
    let x = (sum + 1) % 1009;
    ((x * x) % 1013 % u64::from(below)) as u32
}

/// A graph of which each arc runs at the multiples of some period, up to some last time.
#[derive(Clone, Copy)]
pub struct Town {
    pub seed: u32,
    pub nodes: u32,
    ghost some: { 0 < nodes },
    ghost few: { nodes ≤ 2 ^ 25 },
}

impl Town {
    pub fn new(seed: u32, nodes: u32) -> Town
        requires some { 0 < nodes }
        requires few { nodes ≤ 2 ^ 25 }
        ensures nodes { result.nodes ≡ nodes }
    {
        Town { seed, nodes }
    }
}

impl Graph for Town {
    ghost meaning = { λ g. town g.seed g.nodes };

    ghost lawful = { λ g. town_lawful g.seed g.nodes g.some g.few };

    fn nodes(&self) -> u32 {
        self.nodes
    }

    fn arcs(&self, _v: u32) -> u64 {
        3
    }

    fn arc_at(&self, v: u32, i: u64) -> GraphArc {
        let i = i as u32;
        GraphArc {
            to: draw(self.seed, v, i, 1, self.nodes),
            letter: letter(draw(self.seed, v, i, 2, 4)),
        }
    }

    fn arrive(&self, v: u32, i: u64, t: Time) -> Option<Time> {
        let i = i as u32;
        let every = Time::from(draw(self.seed, v, i, 3, 7)) + 1;
        let last = Time::from(draw(self.seed, v, i, 4, 40));
        let ms = Time::from(draw(self.seed, v, i, 5, 6));
        if last < t {
            None
        } else {
            Some((t + (every - 1)) / every * every + ms)
        }
    }

    ghost steady_count = { λ _ _. 0 };

    fn steady(&self, _v: u32) -> Steady<'_> {
        Steady {
            legs: &[],
            letter: None,
        }
    }
}

/// One of the letters 1 to 3, or none.
fn letter(n: u32) -> Option<u8>
    requires { n < 4 }
    ensures { result ≡ letter_drawn n }
{
    if n == 0 { None } else { Some(n as u8) }
}

/// An automaton with two moves out of each state.
#[derive(Clone, Copy)]
pub struct Rules {
    pub seed: u32,
    pub states: u32,
    ghost some: { 0 < states },
    ghost few: { states ≤ 2 ^ 16 },
}

impl Rules {
    pub fn new(seed: u32, states: u32) -> Rules
        requires some { 0 < states }
        requires few { states ≤ 2 ^ 16 }
        ensures states { result.states ≡ states }
    {
        Rules { seed, states }
    }
}

impl Labels for Rules {
    ghost automaton = { λ l. rules l.seed l.states };

    ghost lawful = { λ l. rules_lawful l.seed l.states l.some l.few };

    fn states(&self) -> u32 {
        self.states
    }

    fn is_start(&self, q: u32) -> bool {
        q == 0 || draw(self.seed, q, 0, 6, 3) == 0
    }

    fn moves(&self, _q: u32) -> u32 {
        2
    }

    fn move_at(&self, q: u32, i: u32) -> Move {
        Move {
            letters: 2 * draw(self.seed, q, i, 7, 8),
            to: draw(self.seed, q, i, 8, self.states),
        }
    }

    fn accepts(&self, q: u32) -> bool {
        draw(self.seed, q, 0, 9, 2) == 0
    }
}

/// What a search over a graph and an automaton that are drawn from a number is asked.
#[derive(Clone, Copy)]
pub struct Asked {
    pub town: Town,
    pub rules: Rules,
    pub starts: [u32; 3],
    pub targets: [u32; 1],
    pub dep: u32,
    ghost soon: { dep < 6 },
}

impl Asked {
    /// What is drawn from a number.
    pub fn new(seed: u32) -> Asked {
        let town = Town::new(seed, 2 + seed % 4);
        let rules = Rules::new(seed / 2, 1 + seed % 3);
        Asked {
            town,
            rules,
            starts: [seed % 2, 0, seed % 2],
            targets: [town.nodes - 1],
            dep: seed % 6,
        }
    }
}
