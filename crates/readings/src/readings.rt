// The worked examples stand.
ghost use Rattle.readings.specs.Readings.{Readings, WorkedPages};

// What the rules say of each example, and what the programs print for it.
pub fn readings_stand()
    ensures readings { Readings }
    ensures pages { WorkedPages }
{}
