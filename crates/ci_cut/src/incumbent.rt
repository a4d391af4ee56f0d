//! The best cut so far.
ghost use Rattle.ci_cut.specs.GraphRules.{AreNodes};
ghost use Rattle.ci_cut.specs.Incumbents.{IsImproved};

use crate::graph::{Graph, Limits};
use crate::value::gain_above;
use ci_word::Row;

/// The best cut so far, or none, and what it gains; with no cut its gain is 0.
#[derive(Clone, Copy)]
pub struct Incumbent {
    pub cut: Option<Row>,
    pub gain: i64,
}

impl Incumbent {
    /// The set where it fits and gains more than this cut, and else this cut.
    ///
    /// Each number of the set has to be a node.
    pub(crate) fn improved(&self, graph: &Graph, limits: &Limits, cut: &Row) -> Incumbent
        requires { AreNodes graph.now cut.now }
        ensures { IsImproved graph.now limits.now self.now cut.now result }
    {
        match gain_above(graph, limits, cut, self.gain) {
            Some(gain) => Incumbent {
                cut: Some(*cut),
                gain,
            },
            None => *self,
        }
    }
}
