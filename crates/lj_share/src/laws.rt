//! Laws of the seats of a book. The functions do nothing. They are never run, and so take no time.
ghost use Rattle.lj_share.specs.Seats.{HereUntilLeft};

/// Where a history is legal, a seat that has not left is there: so no call of it is refused as gone.
pub fn here_until_left()
    ensures { HereUntilLeft }
{}
