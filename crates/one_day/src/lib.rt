// A file has one day: the theorem in the contract below.
#![tactic(auto)]

ghost use Rattle.one_day.specs.OneDay.{OneAnswer, OneDay};

// A record has one answer on a day and leaves one day, and so two texts of a file differ in the lines of runs alone.
pub fn one_day()
    ensures answer { OneAnswer }
    ensures day { OneDay }
{}
