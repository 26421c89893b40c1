// Laws of stations in turns.
ghost use Rattle.laws_keystate.specs.Runs.{SignsInOrder};
ghost use Rattle.sp_service_station.specs.Stations.{StationStep, indexes_in};
ghost use Rattle.sp_service_station.specs.Supplies.{TurnsAreSupplied};

/// A law: in its turns a station is never asked to sign while an index is left that isn't reserved yet, so nothing is answered `notreserved`.
pub fn turns_are_supplied()
    ensures { TurnsAreSupplied }
{}

/// A law: a station signs with one index after another, each below its bound, so its daemon's runs are starts of a history.
pub fn stations_sign_in_order()
    ensures { SignsInOrder StationStep indexes_in }
{}
