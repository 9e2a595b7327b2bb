//! What a build is asked for.

ghost use Rattle.std.specs.Prelude.{◌≡◌, SomeIff};
ghost use Rattle.paxos_core_world.specs.Quorum.{AreQuorums};
ghost use Rattle.cfarm_options.specs.Quorums.{asked_quorums, quorums_of};
ghost use Rattle.cfarm_options.specs.Sizes.{AreOfNodes, count_of, size_of, sizes_of};

use paxos_core_world::quorum::Quorums;
use std::fmt;

/// How many nodes a farm has.
#[derive(Clone, Copy, Debug, PartialEq, Eq)]
pub enum Nodes {
    Two,
    Three,
    Four,
    Five,
    Six,
    Seven,
}

impl Nodes {
    /// The number.
    pub fn count(self) -> u8
        ensures number { result ≡ count_of self }
        ensures size { AreOfNodes result }
    {
        match self {
            Nodes::Two => 2,
            Nodes::Three => 3,
            Nodes::Four => 4,
            Nodes::Five => 5,
            Nodes::Six => 6,
            Nodes::Seven => 7,
        }
    }
}

/// How many nodes a farm is asked to have, and of how many of them each of its two quorums is to consist, whether these
/// meet or not. Its text is the line for sizes that do not.
#[derive(Clone, Copy, Debug, PartialEq, Eq)]
pub struct AskedSizes {
    pub nodes: u8,
    pub promise: u8,
    pub accept: u8,
}

impl AskedSizes {
    /// The quorums of these sizes. None where a promise quorum and an accept quorum of them need not meet.
    pub fn quorums(self) -> Option<Quorums>
        ensures { SomeIff result (AreQuorums (asked_quorums self)) (asked_quorums self) }
    {
        Quorums::of(self.nodes, self.promise, self.accept)
    }
}

impl fmt::Display for AskedSizes {
    ghost use Rattle.std.specs.Prelude.{Some};
    ghost use Rattle.cfarm_options.specs.Sizes.{sizes_line};

    ghost output = { λ s. Some (sizes_line s) };

    fn fmt<W: fmt::Write>(&self, f: &mut fmt::Formatter<W>) -> fmt::Result {
        let (nodes, promise, accept) = (self.nodes, self.promise, self.accept);
        write!(f, "quorums {nodes} {promise} {accept}")
    }
}

/// How the optimisers of a build's nodes choose among what they may propose.
#[derive(Clone, Copy, Debug, PartialEq, Eq)]
pub enum Optimise {
    /// Each choice is a draw of the node's generator.
    Drawn,
    /// Each node tries to make a program that runs fast, in a way of its own.
    Speed,
}

/// What a build is asked for, beside its text.
#[derive(Clone, Copy, Debug)]
pub struct BuildOptions<'a> {
    pub nodes: Nodes,
    /// How many nodes a promise quorum is to have, where that is said.
    pub promise: Option<u8>,
    /// How many nodes an accept quorum is to have, where that is said.
    pub accept: Option<u8>,
    /// How many turns each node takes at most.
    pub turns: u32,
    /// Of the nodes' generators.
    pub seed: u64,
    /// How the nodes' optimisers choose.
    pub optimise: Optimise,
    /// The folder of the journals and of the linked program, which is not made.
    pub folder: &'a str,
    /// The file of the bundle of the linked offers, as it is given, where one is to be written.
    pub bundle: Option<&'a str>,
    /// The folder of offers that were made outside, where the nodes are given some.
    pub offers: Option<&'a str>,
}

/// The size that is asked for, else more than half of the nodes.
fn size_of(nodes: u8, asked: Option<u8>) -> u8
    ensures { result ≡ size_of nodes asked }
{
    match asked {
        Some(size) => size,
        None => nodes / 2 + 1,
    }
}

impl BuildOptions<'_> {
    /// The sizes that are asked for. A quorum of which nothing is said has half of the nodes, rounded down, and one more.
    pub fn sizes(&self) -> AskedSizes
        ensures { result ≡ sizes_of self.now }
    {
        let nodes = self.nodes.count();
        AskedSizes {
            nodes,
            promise: size_of(nodes, self.promise),
            accept: size_of(nodes, self.accept),
        }
    }

    /// The quorums that are asked for. None where a promise quorum and an accept quorum of these sizes need not meet.
    pub fn quorums(self) -> Option<Quorums>
        ensures { SomeIff result (AreQuorums (quorums_of self.entry)) (quorums_of self.entry) }
    {
        self.sizes().quorums()
    }
}
