// The computed runs are runs by the rules.
ghost use Rattle.readings.specs.Runs.{RunsByTheRules};

use element::element::Element;

// Of any elements, over any medium.
pub fn runs_follow_the_rules<E: Element>()
    ensures { RunsByTheRules E.algebra }
{}
