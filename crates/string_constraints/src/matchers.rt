//! Matchers that are kept for later searches.
ghost use Rattle.std.specs.Prelude.{◌≡◌, ◌↔◌, [], IfOk, IsTrue, OnErr, OnOk, Some, length, slice_get};
ghost use Rattle.regex.specs.Strings.{IsReadFromSource, regex_config};
ghost use Rattle.shape_model.specs.Patterns.{config_of};
ghost use Rattle.shape_model.specs.TermTests.{IsMatched};
ghost use Rattle.literal_order.specs.Texts.{string_value};
ghost use Rattle.component_rows.specs.Answers.{AreAnswersTo};

use crate::matching::are_found;
use component_rows::Site;
use rdf_model::Names;
use regex::{Matcher, Regex};
use std::alloc::{AllocError, Global};
use std::marker::Model;

// How many matchers are kept at most: each takes memory of its own, and is looked for among all.
const MOST_KEPT: usize = 64;

/// A matcher of a pattern, with the regex that it searches for and the flags under which that was built. Contracts see the text
/// of the pattern and the flags.
#[derive(Drop)]
pub struct PatternMatcher<'r> {
    regex: &'r Regex,
    flags: &'r str,
    matcher: Matcher<'r>,
}

impl<'r> Model for PatternMatcher<'r> {
    ghost use Rattle.string_constraints.specs.Matches.{IsKept, Searched, searched};

    ghost Value = { Searched };

    ghost view = { λ k. searched k.regex.now k.flags.now };

    ghost invariant = { λ k. IsKept k.regex.now k.flags.now k.matcher };
}

impl<'r> PatternMatcher<'r> {
    ghost use Rattle.string_constraints.specs.Matches.{searched};

    // A matcher of the regex, which was built under the flags.
    fn new(
        alloc: Global,
        regex: &'r Regex,
        flags: &'r str,
    ) -> Result<PatternMatcher<'r>, AllocError>
        requires config { regex_config regex.now ≡ config_of flags.now }
        requires read { IsReadFromSource regex.now }
        ensures { IfOk result (λ kept. kept ≡ searched regex.entry.now flags.entry.now) }
    {
        let matcher = regex.matcher(alloc)?;
        Ok(PatternMatcher {
            regex,
            flags,
            matcher,
        })
    }

    // Whether it searches for the pattern of the text under the flags.
    fn is_for(&self, source: &str, flags: &str) -> bool
        ensures { IsTrue result ↔ ((self.now.source ≡ source.now) × (self.now.flags ≡ flags.now)) }
    {
        self.regex.as_str() == source && self.flags == flags
    }

    /// Whether the pattern matches the text of each value node.
    pub(crate) fn answers<N: Names>(&mut self, site: &Site<'_, N>) -> Result<Vec<bool>, AllocError>
        ensures as_many { IfOk result (λ answers. length answers.items ≡ length site.now.values) }
        ensures told { IfOk result (λ answers. (q : _) → string_value q ≡ Some self.old.source → AreAnswersTo (IsMatched q self.old.flags) site.now.terms site.now.values answers.items) }
        ensures same { self.new ≡ self.old }
    {
        are_found(site, &mut self.matcher)
    }
}

/// Matchers of patterns, each kept for later searches for the same pattern under the same flags.
#[derive(Drop)]
pub struct Matchers<'r> {
    kept: Vec<PatternMatcher<'r>>,
}

impl<'r> Matchers<'r> {
    ghost use Rattle.string_constraints.specs.Matches.{Provides, searched, with_matcher};

    /// No matchers so far. It takes no memory.
    pub fn new(alloc: Global) -> Matchers<'r>
        ensures { result.kept.items ≡ [] }
    {
        Matchers {
            kept: Vec::new(alloc),
        }
    }

    // Keeps one matcher more, in the place of the last one where there are the most.
    fn keep(&mut self, matcher: PatternMatcher<'r>) -> Result<usize, AllocError>
        ensures place { IfOk result (λ place. slice_get self.new.kept.items place ≡ Some matcher.entry) }
        ensures kept { OnOk result (self.new.kept.items ≡ with_matcher self.old.kept.items matcher.entry) }
        ensures same { OnErr result (self.new.kept.items ≡ self.old.kept.items) }
    {
        self.kept.truncate(MOST_KEPT - 1);
        let place = self.kept.len();
        self.kept.push(matcher)?;
        Ok(place)
    }

    // The place of a matcher of the regex, which was built under the flags. It is made where none is kept.
    fn place_of(
        &mut self,
        alloc: Global,
        regex: &'r Regex,
        flags: &'r str,
    ) -> Result<usize, AllocError>
        requires config { regex_config regex.now ≡ config_of flags.now }
        requires read { IsReadFromSource regex.now }
        ensures place { IfOk result (λ place. slice_get self.new.kept.items place ≡ Some (searched regex.entry.now flags.entry.now)) }
        ensures kept { OnOk result (Provides (searched regex.entry.now flags.entry.now) self.old.kept.items self.new.kept.items) }
        ensures same { OnErr result (self.new.kept.items ≡ self.old.kept.items) }
    {
        for place in 0..self.kept.len() {
            if self.kept[place].is_for(regex.as_str(), flags) {
                return Ok(place);
            }
        }
        let matcher = PatternMatcher::new(alloc, regex, flags)?;
        self.keep(matcher)
    }

    /// The matcher of the regex, which was built under the flags. It is made where none is kept.
    pub fn matcher_of(
        &mut self,
        alloc: Global,
        regex: &'r Regex,
        flags: &'r str,
    ) -> Result<&mut PatternMatcher<'r>, AllocError>
        requires config { regex_config regex.now ≡ config_of flags.now }
        requires read { IsReadFromSource regex.now }
        ensures { IfOk result (λ matcher. matcher.now ≡ searched regex.entry.now flags.entry.now) }
    {
        let place = self.place_of(alloc, regex, flags)?;
        Ok(&mut self.kept[place])
    }
}
