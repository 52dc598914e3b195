//! Certificates.

ghost use Rattle.std.specs.Prelude.{◌≡◌};

use orienteering::{Listed, Node};
use std::marker::Model;

/// What a solver claims of an instance: the listed points with their plans, and the nodes in preorder of the tree that
/// covers every plan. Nothing is said of whether the claim is right, or of the instance being known.
#[derive(Drop)]
pub struct Cert {
    customers: u64,
    team: u64,
    scale: u64,
    points: Vec<Listed>,
    nodes: Vec<Node>,
}

impl Model for Cert {
    ghost use Rattle.orienteering.specs.Certificate.{Certificate};

    ghost Value = { Certificate };

    ghost view = { λ c. record { customers = c.customers; team = c.team; scale = c.scale; points = c.points.items; nodes = c.nodes.items } };
}

impl Cert {
    /// A certificate of these parts, for an instance with so many calls, so many members and this scale.
    pub fn from_parts(
        customers: u64,
        team: u64,
        scale: u64,
        points: Vec<Listed>,
        nodes: Vec<Node>,
    ) -> Cert
        ensures { result ≡ record { customers = customers; team = team; scale = scale; points = points.items; nodes = nodes.items } }
    {
        Cert {
            customers,
            team,
            scale,
            points,
            nodes,
        }
    }

    /// The number of calls of the instance.
    pub fn customers(&self) -> u64
        ensures { result ≡ self.now.customers }
    {
        self.customers
    }

    /// The number of members of the instance's team.
    pub fn team(&self) -> u64
        ensures { result ≡ self.now.team }
    {
        self.team
    }

    /// The scale of the instance: how many units of time a unit of length is.
    pub fn scale(&self) -> u64
        ensures { result ≡ self.now.scale }
    {
        self.scale
    }

    /// The points, each with a plan that is claimed to reach it.
    pub fn points(&self) -> &[Listed]
        ensures { result.now ≡ self.now.points }
    {
        &self.points
    }

    /// The nodes of the tree in preorder.
    pub fn nodes(&self) -> &[Node]
        ensures { result.now ≡ self.now.nodes }
    {
        &self.nodes
    }
}
