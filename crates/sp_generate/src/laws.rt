// Laws of generated schedules.
ghost use Rattle.sp_generate.specs.Laws.{GeneratedAreSchedules, GeneratedHaveTheirLength};

/// A law: the schedule of a number is a good one.
pub fn generated_are_schedules()
    ensures { GeneratedAreSchedules }
{}

/// A law: it has 3,975 events.
pub fn generated_have_their_length()
    ensures { GeneratedHaveTheirLength }
{}
