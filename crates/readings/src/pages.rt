// The computed pages are the pages of the programs.
ghost use Rattle.readings.specs.Pages.{PagesByTheRules, MediaLookAlike, PagesAreComputed};

// Of any bytes.
pub fn pages_are_computed()
    ensures told { PagesByTheRules }
    ensures media { MediaLookAlike }
    ensures pages { PagesAreComputed }
{}
