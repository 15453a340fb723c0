// What laid plans mean, as facts that callers can cite.
ghost use Rattle.std.specs.Prelude.{◌≡◌};
ghost use Rattle.forest.specs.Meaning.{LaidPlansAreStarForests, LaidPlansKeepTheRules};

// The laid plan of every sound scene is a star forest, and keeps the rules of a plan.
pub fn star_forest_stands() -> u8
    ensures answer { result ≡ 0 }
    ensures forest { LaidPlansAreStarForests }
    ensures rules { LaidPlansKeepTheRules }
{
    0
}
