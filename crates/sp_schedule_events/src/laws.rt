// A law of events and their lines.
ghost use Rattle.sp_schedule_events.specs.Laws.{EventsHaveOneLine};

/// A law: words are read as an event exactly where they are the event's words, and the event may come after those before it.
pub fn events_have_one_line()
    ensures { EventsHaveOneLine }
{}
