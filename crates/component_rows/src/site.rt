//! Where a component is asked.
ghost use Rattle.std.specs.Prelude.{◌≡◌, ◌<◌, length};
ghost use Rattle.rdf_model.specs.Numbers.{IsNumbering, term_at};
ghost use Rattle.component_rows.specs.Nodes.{AreNodes};
ghost use Rattle.component_rows.specs.Sites.{IsSpot, spot};

use crate::named;
use rdf_model::{Names, Term};
use std::alloc::Global;
use std::marker::Model;

/// Where a component is asked: at a value of its parameter, for a source shape, a focus node and the value nodes there, which
/// are ascending. Each number has a term.
#[derive(Drop)]
pub struct Site<'a, N: Names> {
    alloc: Global,
    names: &'a N,
    source: &'a Term,
    parameter: u32,
    focus: u32,
    values: &'a [u32],
}

impl<'a, N: Names> Model for Site<'a, N> {
    ghost use Rattle.component_rows.specs.Sites.{IsSpot, Spot, spot};

    ghost Value = { Spot };

    ghost view = { λ s. spot (N.terms s.names.now) s.source.now s.parameter s.focus s.values.now };

    ghost invariant = { λ s. IsSpot (spot (N.terms s.names.now) s.source.now s.parameter s.focus s.values.now) };
}

impl<'a, N: Names> Site<'a, N> {
    /// The site of these. It takes no memory.
    pub fn new(
        alloc: Global,
        names: &'a N,
        source: &'a Term,
        parameter: u32,
        focus: u32,
        values: &'a [u32],
    ) -> Site<'a, N>
        requires numbering { IsNumbering (N.terms names.now) }
        requires parameter { parameter < length (N.terms names.now) }
        requires focus { focus < length (N.terms names.now) }
        requires nodes { AreNodes (N.terms names.now) values.now }
        ensures { result ≡ spot (N.terms names.entry.now) source.entry.now parameter focus values.entry.now }
    {
        Site {
            alloc,
            names,
            source,
            parameter,
            focus,
            values,
        }
    }

    /// What is known of each site: the call only recalls it.
    pub fn recall(&self)
        ensures { IsSpot self.now }
    {
        let _focus = self.focus;
    }

    /// The allocator of what is made for the site.
    pub fn alloc(&self) -> Global {
        self.alloc
    }

    /// The number of the parameter's value.
    pub fn parameter(&self) -> u32
        ensures { result ≡ self.now.parameter }
    {
        self.parameter
    }

    /// The number of the focus node.
    pub fn focus(&self) -> u32
        ensures { result ≡ self.now.focus }
    {
        self.focus
    }

    /// The numbers of the value nodes.
    pub fn values(&self) -> &'a [u32]
        ensures { result.now ≡ self.now.values }
    {
        self.values
    }

    /// The term of a number that has one.
    pub fn named(&self, number: u32) -> &'a Term
        requires { number < length self.now.terms }
        ensures { result.now ≡ term_at self.now.terms number }
    {
        named(self.names, number)
    }

    /// The source shape.
    pub fn source(&self) -> &'a Term
        ensures { result.now ≡ self.now.source }
    {
        self.source
    }

    /// The parameter's value.
    pub fn parameter_term(&self) -> &'a Term
        ensures { result.now ≡ term_at self.now.terms self.now.parameter }
    {
        self.recall();
        self.named(self.parameter())
    }

    /// The focus node.
    pub fn focus_term(&self) -> &'a Term
        ensures { result.now ≡ term_at self.now.terms self.now.focus }
    {
        self.recall();
        self.named(self.focus())
    }
}
